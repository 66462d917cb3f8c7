// The tables that an ordering writes: the points in their order, and the place of each point in it.
ghost use Rattle.std.specs.Prelude.{◌≡◌, ◌<◌, ◌≤◌, length, replicate, slice_set};
ghost use Rattle.scheme.specs.Bounds.{no_point};
ghost use Rattle.solver.specs.Work.{written};

// What stands at a point that is not in the order: a caller's table has numbers of 16 bits, and no Options.
pub(crate) const NO_PLACE: u16 = 65_535;

// Writes that none of the first `points` points is in the order.
pub(crate) fn clear_places(place: &mut [u16], points: u16)
    requires { points ≤ length place.old }
    ensures { place.new ≡ written (replicate points no_point) place.old }
{
    place[..usize::from(points)].fill(NO_PLACE);
}

// Writes a point into the order at a position, and the position as the point's place.
pub(crate) fn enter_point(order: &mut [u16], place: &mut [u16], point: u16, position: u16)
    requires listed { position < length order.old }
    requires placed { point < length place.old }
    ensures order { order.new ≡ slice_set order.old position point }
    ensures place { place.new ≡ slice_set place.old point position }
{
    order[usize::from(position)] = point;
    place[usize::from(point)] = position;
}
