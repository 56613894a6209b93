// Worked facts of the definitions.
ghost use Rattle.shifts.specs.Examples.{Examples};

// Its contract holds the worked facts together.
pub fn examples_hold()
    ensures value { Examples }
{}
