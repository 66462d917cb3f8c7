// A register whose points are limited too: every point has a gate that what passes it goes through.
ghost use Rattle.std.specs.Prelude.{◌≡◌, IfSome, is_some, slice_index_or};
ghost use Rattle.scheme.specs.Refusals.{book_refusal, refusal_of, unlisted};
ghost use Rattle.scheme.specs.Scheme.{with_flow, with_limit};
ghost use Rattle.layers.specs.Junctions.{junction_over, below_written, gates_written, gate_limited, gate_flowing};
ghost use Rattle.layers.specs.Junctions.{carriable, junction, fresh_gate_list, shut, site_of};

use crate::gates::{GATES, Gate, NO_POINT, Site, arrival_at, departure_from, fresh_gates};
use scheme::questions::MOST_REACHES;
use scheme::{Book, BookFault, Register};

#[derive(Drop)]
pub struct Junction<R> {
    below: R,
    // a fixed table: a layer asks for no memory
    gates: [Gate; GATES],
}

impl<R> Junction<R> {
    // Gates with these limits, in point order, and no flow. A point past the end of the list gets 1,000,000;
    // limits past the last point are not used.
    pub fn new(below: R, limits: &[u32]) -> Junction<R>
        ensures register { result.below ≡ below }
        ensures gates { result.gates ≡ fresh_gate_list limits.now }
    {
        Junction {
            below,
            gates: fresh_gates(limits),
        }
    }

    // The register below, to look at.
    pub fn below(&self) -> &R
        ensures { result.now ≡ self.now.below }
    {
        &self.below
    }

    // Gives the register below back.
    pub fn into_below(self) -> R
        ensures { result ≡ self.below }
    {
        let Junction { below, gates: _ } = self;
        below
    }
}

impl<R: Register> Junction<R> {
    // The register below, if it is one that a junction can stand on. (Reads take it apart by `match`: as arguments of `map_or` the
    // arms would be closures that want clauses of their own.)
    fn carried(&self) -> Option<&R>
        ensures fits { is_some result ≡ carriable (R.scheme self.now.below) }
        ensures same { IfSome result (λ below. below.now ≡ self.now.below) }
    {
        let fits = usize::from(self.below.points()) <= GATES
            && self.below.reaches() <= MOST_REACHES;
        fits.then_some(&self.below)
    }

    // Where a reach is kept, if the junction has it.
    fn site(&self, reach: usize) -> Option<Site>
        ensures { result ≡ site_of (R.scheme self.now.below) reach }
    {
        let below = self.carried()?;
        let reaches = below.reaches();
        if reach < reaches {
            return Some(Site::Below);
        }
        let point = reach - reaches;
        // an `if`, since `then_some` would cast every point
        if point < usize::from(below.points()) {
            Some(Site::At(point as u8))
        } else {
            None
        }
    }

    fn gate(&self, point: u8) -> &Gate
        ensures { result.now ≡ slice_index_or self.now.gates point shut }
    {
        &self.gates[usize::from(point)]
    }
}

#[tactic(auto, using(crate::proofs::Sites::site_read, crate::proofs::Sites::length_on, crate::proofs::Mapped::mapped_mapped))]
impl<R: Register> Register for Junction<R> {
    ghost scheme = { junction_over R.scheme };

    fn points(&self) -> u16 {
        match self.carried() {
            Some(below) => 2 * below.points(),
            None => 0,
        }
    }

    fn inlet(&self) -> u16 {
        match self.carried() {
            Some(below) => arrival_at(below.points(), below.inlet()),
            None => NO_POINT,
        }
    }

    fn outlet(&self) -> u16 {
        match self.carried() {
            Some(below) => departure_from(below.points(), below.outlet()),
            None => NO_POINT,
        }
    }

    fn reaches(&self) -> usize {
        match self.carried() {
            Some(below) => below.reaches() + usize::from(below.points()),
            None => 0,
        }
    }

    fn tail(&self, reach: usize) -> Option<u16> {
        match self.site(reach)? {
            Site::Below => {
                let tail = self.below.tail(reach)?;
                Some(departure_from(self.below.points(), tail))
            }
            Site::At(point) => Some(u16::from(point)),
        }
    }

    fn head(&self, reach: usize) -> Option<u16> {
        match self.site(reach)? {
            Site::Below => {
                let head = self.below.head(reach)?;
                Some(arrival_at(self.below.points(), head))
            }
            Site::At(point) => Some(u16::from(point) + self.below.points()),
        }
    }

    fn limit(&self, reach: usize) -> Option<u32> {
        match self.site(reach)? {
            Site::Below => self.below.limit(reach),
            Site::At(point) => Some(self.gate(point).limit),
        }
    }

    fn flow(&self, reach: usize) -> Option<u32> {
        match self.site(reach)? {
            Site::Below => self.below.flow(reach),
            Site::At(point) => Some(self.gate(point).flow),
        }
    }
}

// What the book below keeps, the junction keeps. The two writes have one shape: a method for both would take the write
// below and the write to the gate as closures, and is no plainer.
#[tactic(auto, using(crate::proofs::SiteWrites::site_refused))]
impl<B: Book> Book for Junction<B> {
    ghost kept = { λ j. B.kept j.below };

    fn set_limit(&mut self, reach: usize, limit: u32) -> Result<(), BookFault>
        ensures answer { refusal_of book_refusal result ≡ unlisted (junction_over B.scheme self.old) reach }
        ensures after { junction_over B.scheme self.new
            ≡ with_limit (junction_over B.scheme self.old) reach limit }
        ensures kept { B.kept self.new.below ≡ B.kept self.old.below }
        ensures below { B.scheme self.new.below
            ≡ below_written (λ s. with_limit s reach limit) (B.scheme self.old.below) reach }
        ensures gates { self.new.gates
            ≡ gates_written (gate_limited limit) (B.scheme self.old.below) self.old.gates reach }
    {
        match self.site(reach).ok_or(BookFault::NoReach(reach))? {
            Site::Below => self.below.set_limit(reach, limit),
            Site::At(point) => {
                self.gates[usize::from(point)].limit = limit;
                Ok(())
            }
        }
    }

    fn set_flow(&mut self, reach: usize, flow: u32) -> Result<(), BookFault>
        ensures answer { refusal_of book_refusal result ≡ unlisted (junction_over B.scheme self.old) reach }
        ensures after { junction_over B.scheme self.new
            ≡ with_flow (junction_over B.scheme self.old) reach flow }
        ensures kept { B.kept self.new.below ≡ B.kept self.old.below }
        ensures below { B.scheme self.new.below
            ≡ below_written (λ s. with_flow s reach flow) (B.scheme self.old.below) reach }
        ensures gates { self.new.gates
            ≡ gates_written (gate_flowing flow) (B.scheme self.old.below) self.old.gates reach }
    {
        match self.site(reach).ok_or(BookFault::NoReach(reach))? {
            Site::Below => self.below.set_flow(reach, flow),
            Site::At(point) => {
                self.gates[usize::from(point)].flow = flow;
                Ok(())
            }
        }
    }
}
