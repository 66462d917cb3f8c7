// Reaches, and a reach of a register as a whole.
ghost use Rattle.std.specs.Prelude.{◌≡◌};
ghost use Rattle.std.specs.List.{slice_get};

use crate::registers::Register;

// A one-way channel from its tail to its head.
#[derive(Clone, Copy, PartialEq, Eq, Debug)]
pub struct Reach {
    pub tail: u16,
    pub head: u16,
    // the most that it may carry, in litres per second
    pub limit: u32,
    // what it carries
    pub flow: u32,
}

// The reach with this number, if the register has one. It reads all four fields.
pub fn reach_of<R: Register>(register: &R, reach: usize) -> Option<Reach>
    ensures { result ≡ slice_get (R.scheme register.now).reaches reach }
{
    Some(Reach {
        tail: register.tail(reach)?,
        head: register.head(reach)?,
        limit: register.limit(reach)?,
        flow: register.flow(reach)?,
    })
}
