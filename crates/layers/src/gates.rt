// The gates of a junction, one for each point, and where its reaches are kept.
ghost use Rattle.std.specs.Prelude.{◌≡◌, ◌≤◌, map};
ghost use Rattle.std.specs.List.{range_with_len};
ghost use Rattle.layers.specs.Junctions.{fresh_gate, arrival, departure};

use scheme::questions::GREATEST_LIMIT;
use std::array;

// The most points, each with a gate, that a junction can stand on.
pub(crate) const GATES: usize = 256;

// Stands for an end that is no point: a register's ends are plain numbers, and a junction is to read so there.
pub(crate) const NO_POINT: u16 = u16::MAX;

// What may pass a point, and what passes it.
#[derive(Clone, Copy)]
pub(crate) struct Gate {
    pub limit: u32,
    pub flow: u32,
}

// Where a junction keeps a reach: in the register below, under the same number, or at a point's gate.
#[derive(Clone, Copy)]
pub(crate) enum Site {
    Below,
    At(u8),
}

// Gates with these limits, in point order, that nothing passes yet. A point for which none is given is as open as
// a reach may be. (Of any number of gates, so that a proof does not write out 256.)
pub(crate) fn fresh_gates<const N: usize>(limits: &[u32]) -> [Gate; N]
    ensures { result ≡ map (fresh_gate limits.now) (range_with_len 0 N) }
{
    array::from_fn(|point| Gate {
        limit: limits.get(point).copied().unwrap_or(GREATEST_LIMIT),
        flow: 0,
    })
}

// Where water comes to a point of the register below. This and the next differ by a shift that only the one has; with the shift
// as a parameter neither would say what it is.
pub(crate) fn arrival_at(points: u16, point: u16) -> u16
    ensures { result ≡ arrival points point }
{
    if point < points { point } else { NO_POINT }
}

// Where it leaves that point.
pub(crate) fn departure_from(points: u16, point: u16) -> u16
    requires { points ≤ 256 }
    ensures { result ≡ departure points point }
{
    if point < points {
        point + points
    } else {
        NO_POINT
    }
}
