// The laws of limiting what passes a point. Each function's contract is the law.
ghost use Rattle.layers.specs.JunctionLaws.{LawfulBelow, ExtendsAbove, LawfulNow, GreatestAsUnder, WellFormedAbove};

pub fn junction_flow_is_lawful_below()
    ensures any_flow { LawfulBelow }
    ensures present_flow { LawfulNow }
{}

pub fn flow_within_gates_extends_above()
    ensures { ExtendsAbove }
{}

pub fn junction_greatest_is_greatest_within_gates()
    ensures { GreatestAsUnder }
{}

pub fn junction_keeps_form()
    ensures { WellFormedAbove }
{}
