// The laws of turning a register round. Each function's contract is the law.
ghost use Rattle.layers.specs.TurnLaws.{TurnedTwiceIsItself, LawfulAboveAsBelow, ValueAsBelow, GreatestAsBelow, SideIfRestIs, CapacityOfRest, WellFormedAsBelow};

pub fn turning_twice_restores()
    ensures { TurnedTwiceIsItself }
{}

pub fn turning_keeps_form()
    ensures { WellFormedAsBelow }
{}

pub fn turning_keeps_lawfulness()
    ensures { LawfulAboveAsBelow }
{}

pub fn turning_keeps_value()
    ensures { ValueAsBelow }
{}

pub fn turning_keeps_greatest_value()
    ensures { GreatestAsBelow }
{}

pub fn turning_swaps_sides()
    ensures sides { SideIfRestIs }
    ensures capacities { CapacityOfRest }
{}
