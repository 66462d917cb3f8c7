// A pick that keeps its entries as a heap and knows each point's place.
ghost use Rattle.std.specs.Prelude.{◌≡◌};
ghost use Rattle.scheme.specs.Bounds.{most_points};
ghost use Rattle.pick.specs.Calls.{fresh};
ghost use Rattle.pick.specs.Trees.{held_in, InOrder};

use crate::picks::{Pick, fitting, raised};
use crate::trees::Tree;
use scheme::PickFault;

#[derive(Drop)]
pub struct Heap {
    // the entry of each point that is outside
    tree: Tree,
    // a fact of the heap and not of its tree, since it is false while an entry goes up or down
    ghost ordered: { InOrder tree },
}

impl Heap {
    pub fn new() -> Heap
        ensures { held_in result.tree ≡ fresh most_points }
    {
        Heap { tree: Tree::new() }
    }
}

#[tactic(auto, using(crate::proofs::Links::held_size, crate::proofs::Links::held_at))]
impl Pick for Heap {
    ghost held = { λ h. held_in h.tree };

    fn start(&mut self, points: u16) -> Result<(), PickFault> {
        fitting(points)?;
        self.tree.start(points);
        Ok(())
    }

    fn raise(&mut self, point: u16, by: u64) -> Result<(), PickFault> {
        let place = self.tree.place(point).ok_or(PickFault::Inside(point))?;
        let key = raised(self.tree.key(place), by).ok_or(PickFault::KeyTooGreat(point))?;
        self.tree.raise(place, key);
        Ok(())
    }

    fn take(&mut self) -> Option<(u16, u64)> {
        let taken = self.tree.take()?;
        Some((taken.point, taken.key))
    }
}
