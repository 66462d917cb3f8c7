// The ordering of one round: the inlet first, and then each time a point with the greatest key from those before it.
ghost use Rattle.std.specs.Prelude.{◌≡◌, ◌≤◌, [], ◌∷◌};
ghost use Rattle.scheme.specs.Flow.{among};
ghost use Rattle.scheme.specs.Questions.{WellFormed};
ghost use Rattle.pick.specs.Calls.{started};
ghost use Rattle.pick.specs.Keys.{size};
ghost use Rattle.solver.specs.Orders.{OrderingMade, OrderBegun};
ghost use Rattle.solver.specs.Raises.{HoldsKeys};
ghost use Rattle.solver.specs.Ready.{ReadyToOrder};

use crate::answers::Rounded;
use crate::placing::{clear_places, enter_point};
use crate::raising::{raise_neighbours, take_greatest};
use pick::{GREATEST_KEY, Pick};
use scheme::Register;

// Makes an ordering of the points, with the pick started for them. Writes the order and each point's place in it, and
// leaves the rest of both tables as it was.
pub(crate) fn make_ordering<R: Register, P: Pick>(
    register: &R,
    pick: &mut P,
    order: &mut [u16],
    place: &mut [u16],
) -> Rounded
    requires ready { ReadyToOrder (R.scheme register.now) order.old place.old (P.held pick.old) }
    requires begun { P.held pick.old ≡ started (size (P.held pick.old)) (R.scheme register.now).points }
    ensures made { OrderingMade (R.scheme register.now) order.old place.old
        result.gain result.length order.new place.new }
    ensures size { size (P.held pick.new) ≡ size (P.held pick.old) }
{
    clear_places(place, register.points());
    let inlet = take_inlet(register, pick);
    enter_point(order, place, inlet, 0);
    take_the_rest(register, pick, order, place)
}

// Gives the inlet the greatest key, so that it is taken first, and takes it.
fn take_inlet<R: Register, P: Pick>(register: &R, pick: &mut P) -> u16
    requires formed { WellFormed (R.scheme register.now) }
    requires begun { P.held pick.old ≡ started (size (P.held pick.old)) (R.scheme register.now).points }
    requires room { (R.scheme register.now).points ≤ size (P.held pick.old) }
    ensures inlet { result ≡ (R.scheme register.now).inlet }
    ensures after { HoldsKeys (R.scheme register.now) (among [])
        (among ((R.scheme register.now).inlet ∷ [])) (P.held pick.new) }
    ensures size { size (P.held pick.new) ≡ size (P.held pick.old) }
{
    // no other key is above 0, so the raise is not refused and the inlet is the one that is taken
    let _ = pick.raise(register.inlet(), GREATEST_KEY);
    take_greatest(pick).0
}

// Takes one point after another behind the inlet, up to the outlet or until nothing is left to any point outside.
fn take_the_rest<R: Register, P: Pick>(
    register: &R,
    pick: &mut P,
    order: &mut [u16],
    place: &mut [u16],
) -> Rounded
    requires ready { ReadyToOrder (R.scheme register.now) order.old place.old (P.held pick.old) }
    requires begun { OrderBegun (R.scheme register.now) order.old place.old (P.held pick.old) }
    ensures made { OrderingMade (R.scheme register.now) order.old place.old
        result.gain result.length order.new place.new }
    ensures size { size (P.held pick.new) ≡ size (P.held pick.old) }
{
    let outlet = register.outlet();
    let mut last = register.inlet();
    let mut length: u16 = 1;
    // no key passes the greatest
    let mut least = GREATEST_KEY;
    // what ends it stands in its middle, between the taking of a point and its entering
    let gain = loop {
        raise_neighbours(register, pick, last);
        let (point, key) = take_greatest(pick);
        if key == 0 {
            break 0;
        }
        enter_point(order, place, point, length);
        length += 1;
        least = least.min(key);
        if point == outlet {
            break least;
        }
        last = point;
    };
    Rounded {
        gain,
        length: usize::from(length),
    }
}
