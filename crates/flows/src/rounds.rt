// What rounds do to the gap, and where they end.
ghost use Rattle.std.specs.Prelude.{◌-◌};
ghost use Rattle.flows.specs.RoundLaws.{EverySchemeHasOneGap, RoundRaisesTheValueByTheGain};
ghost use Rattle.flows.specs.RoundLaws.{RoundGainsWhileThereIsAGap, RoundsCloseTheGap};
ghost use Rattle.flows.specs.RoundLaws.{ChainsAreBounded, EverySchemeSettles, SettledIsGreatest};

// Every lawful scheme has exactly one gap.
pub fn every_scheme_has_one_gap()
    ensures { EverySchemeHasOneGap }
{}

// A round leaves a lawful flow under the same limits, with a value higher by the gain.
pub fn round_raises_the_value_by_the_gain()
    ensures { RoundRaisesTheValueByTheGain }
{}

// A round gains 0 exactly if the gap is 0.
pub fn round_gains_while_there_is_a_gap()
    ensures { RoundGainsWhileThereIsAGap }
{}

// On n points, n - 1 times the gap after a round that gains is at most n - 2 times the gap before it.
pub fn rounds_close_the_gap()
    ensures { RoundsCloseTheGap (λ n. n - 1) (λ n. n - 2) }
{}

// A chain of rounds that gain is no longer than the gap, nor than what is left out of any side.
pub fn chains_are_bounded()
    ensures { ChainsAreBounded }
{}

// From every lawful scheme some chain ends with a round that gains 0.
pub fn every_scheme_settles()
    ensures { EverySchemeSettles }
{}

// Where a chain ends so, the value is the greatest.
pub fn settled_is_greatest()
    ensures { SettledIsGreatest }
{}
