// The points of a side as a list of marks.
ghost use Rattle.std.specs.Prelude.{◌≡◌, ◌<◌, IfOk};
ghost use Rattle.std.specs.List.{AllByRecursion};
ghost use Rattle.claims.specs.Sides.{extent, MarksOf};

use std::alloc::{AllocError, Global};

// A mark for each of the points, 1 for those of the side. A point of the side that is no point of the scheme is
// marked too: the list is then longer than there are points, and no review accepts it.
pub fn marks_of(heap: Global, points: u16, side: &[u16]) -> Result<Vec<u8>, AllocError>
    ensures { IfOk result (λ marks. MarksOf points side.now marks.items) }
{
    let mut marks = vec![in heap; 0u8; extent_of(points, side)]?;
    for point in side {
        marks[usize::from(*point)] = 1;
    }
    Ok(marks)
}

// How many marks are wanted.
fn extent_of(points: u16, side: &[u16]) -> usize
    ensures { result ≡ extent points side.now }
{
    side.iter().fold(usize::from(points), |extent, point| {
        extent.max(usize::from(*point) + 1)
    })
}
