// What an ordering says of keys, sides and the gap.
ghost use Rattle.std.specs.Prelude.{◌^◌};
ghost use Rattle.flows.specs.OrderingLaws.{EverySchemeHasAnOrdering, OrdersFitTheScheme};
ghost use Rattle.flows.specs.OrderingLaws.{KeysGrowPointByPoint, KeysStayWithin, NoGainFindsTheLeastSide};

// Every lawful scheme has an ordering.
pub fn every_scheme_has_an_ordering()
    ensures { EverySchemeHasAnOrdering }
{}

// An order starts with the inlet and holds points of the scheme, each once.
pub fn orders_fit_the_scheme()
    ensures { OrdersFitTheScheme }
{}

// A point that is taken raises the keys by what is left from it.
pub fn keys_grow_point_by_point()
    ensures { KeysGrowPointByPoint }
{}

// No key passes the inlet's start key, nor does the gain.
pub fn keys_stay_within_the_start_key()
    ensures { KeysStayWithin (2 ^ 40) }
{}

// An ordering that gains 0 ends with the least side whose capacity is the value, which is then greatest.
pub fn no_gain_finds_the_least_side()
    ensures { NoGainFindsTheLeastSide }
{}
