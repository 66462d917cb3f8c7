// A register turned round: every reach runs the other way, and inlet and outlet change places.
ghost use Rattle.std.specs.Prelude.{◌≡◌};
ghost use Rattle.scheme.specs.Refusals.{book_refusal, refusal_of, unlisted};
ghost use Rattle.scheme.specs.Scheme.{with_flow, with_limit};
ghost use Rattle.layers.specs.Turns.{turned};

use scheme::{Book, BookFault, Register};

#[derive(Drop)]
pub struct Turned<R> {
    below: R,
}

// Each layer has `below` and `into_below`: a trait for them would state their contracts once more, and is no plainer.
impl<R> Turned<R> {
    pub fn new(below: R) -> Turned<R>
        ensures { result.below ≡ below }
    {
        Turned { below }
    }

    // The register below, to look at.
    pub fn below(&self) -> &R
        ensures { result.now ≡ self.now.below }
    {
        &self.below
    }

    // Gives the register below back.
    pub fn into_below(self) -> R
        ensures { result ≡ self.below }
    {
        let Turned { below } = self;
        below
    }
}

#[tactic(auto, using(crate::proofs::Mapped::field_of_map))]
impl<R: Register> Register for Turned<R> {
    ghost scheme = { λ t. turned (R.scheme t.below) };

    fn points(&self) -> u16 {
        self.below.points()
    }

    fn inlet(&self) -> u16 {
        self.below.outlet()
    }

    fn outlet(&self) -> u16 {
        self.below.inlet()
    }

    fn reaches(&self) -> usize {
        self.below.reaches()
    }

    fn tail(&self, reach: usize) -> Option<u16> {
        self.below.head(reach)
    }

    fn head(&self, reach: usize) -> Option<u16> {
        self.below.tail(reach)
    }

    fn limit(&self, reach: usize) -> Option<u32> {
        self.below.limit(reach)
    }

    fn flow(&self, reach: usize) -> Option<u32> {
        self.below.flow(reach)
    }
}

// What the book below keeps, the turned one keeps.
impl<B: Book> Book for Turned<B> {
    ghost kept = { λ t. B.kept t.below };

    fn set_limit(&mut self, reach: usize, limit: u32) -> Result<(), BookFault>
        ensures answer { refusal_of book_refusal result ≡ unlisted (turned (B.scheme self.old.below)) reach }
        ensures after { turned (B.scheme self.new.below)
            ≡ with_limit (turned (B.scheme self.old.below)) reach limit }
        ensures kept { B.kept self.new.below ≡ B.kept self.old.below }
        ensures below { B.scheme self.new.below
            ≡ with_limit (B.scheme self.old.below) reach limit }
    {
        self.below.set_limit(reach, limit)
    }

    fn set_flow(&mut self, reach: usize, flow: u32) -> Result<(), BookFault>
        ensures answer { refusal_of book_refusal result ≡ unlisted (turned (B.scheme self.old.below)) reach }
        ensures after { turned (B.scheme self.new.below)
            ≡ with_flow (turned (B.scheme self.old.below)) reach flow }
        ensures kept { B.kept self.new.below ≡ B.kept self.old.below }
        ensures below { B.scheme self.new.below
            ≡ with_flow (B.scheme self.old.below) reach flow }
    {
        self.below.set_flow(reach, flow)
    }
}
