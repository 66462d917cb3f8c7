// The two interfaces: a register, which is read, and a book, which is a register that is written too.
ghost use Rattle.std.specs.Prelude.{◌≡◌, ℕ, length};
ghost use Rattle.scheme.specs.Kept.{Kept, nothing_kept};
ghost use Rattle.scheme.specs.Scheme.{Scheme, tail_at, head_at, limit_at, flow_at, with_limit, with_flow};
ghost use Rattle.scheme.specs.Refusals.{book_refusal, refusal_of, unlisted};

use crate::faults::BookFault;

// A register of channels. `scheme` is all that it means, and each read answers with a part of it:
// a field of a reach that is not in the list is absent.
pub trait Register {
    ghost scheme: { Self → Scheme };

    fn points(&self) -> u16
        ensures { result ≡ (scheme self.now).points };

    fn inlet(&self) -> u16
        ensures { result ≡ (scheme self.now).inlet };

    fn outlet(&self) -> u16
        ensures { result ≡ (scheme self.now).outlet };

    fn reaches(&self) -> usize
        ensures { result ≡ length (scheme self.now).reaches };

    fn tail(&self, reach: usize) -> Option<u16>
        ensures { result ≡ tail_at (scheme self.now) reach };

    fn head(&self, reach: usize) -> Option<u16>
        ensures { result ≡ head_at (scheme self.now) reach };

    fn limit(&self, reach: usize) -> Option<u32>
        ensures { result ≡ limit_at (scheme self.now) reach };

    fn flow(&self, reach: usize) -> Option<u32>
        ensures { result ≡ flow_at (scheme self.now) reach };
}

// A register that can be written. A write is refused exactly if the reach is not in the list, and then
// changes nothing; otherwise just the one field takes the number.
pub trait Book: Register {
    // What no write changes beside the meaning. An implementation that has no more than its meaning keeps nothing. (Whatever
    // writes a book says that this stays: it ties two values, and is no fact of one.)
    ghost kept: { Self → Kept } = { λ _. nothing_kept };

    fn set_limit(&mut self, reach: usize, limit: u32) -> Result<(), BookFault>
        ensures answer { refusal_of book_refusal result ≡ unlisted (Self.scheme self.old) reach }
        ensures after { Self.scheme self.new ≡ with_limit (Self.scheme self.old) reach limit }
        ensures kept { kept self.new ≡ kept self.old };

    fn set_flow(&mut self, reach: usize, flow: u32) -> Result<(), BookFault>
        ensures answer { refusal_of book_refusal result ≡ unlisted (Self.scheme self.old) reach }
        ensures after { Self.scheme self.new ≡ with_flow (Self.scheme self.old) reach flow }
        ensures kept { kept self.new ≡ kept self.old };
}
