// A pick that is one of two kinds, so that one list can hold both.
ghost use Rattle.either.specs.Either.{either};

use crate::picks::Pick;
use either::{Either, for_both};
use scheme::PickFault;

impl<P: Pick, Q: Pick> Pick for Either<P, Q> {
    ghost held = { either P.held Q.held };

    fn start(&mut self, points: u16) -> Result<(), PickFault> {
        for_both!(self, pick => pick.start(points))
    }

    fn raise(&mut self, point: u16, by: u64) -> Result<(), PickFault> {
        for_both!(self, pick => pick.raise(point, by))
    }

    fn take(&mut self) -> Option<(u16, u64)> {
        for_both!(self, pick => pick.take())
    }
}
