// The worked schemes.
ghost use Rattle.flows.specs.Worked.{WorkedSchemes};

// What rounds do to them; the two rounds of the example gain 5 and 3.
pub fn worked_schemes_come_out()
    ensures { WorkedSchemes 5 3 }
{}
