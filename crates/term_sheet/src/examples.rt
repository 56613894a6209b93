// Sheets whose meaning is worked out.
ghost use Rattle.term_sheet.specs.Examples.{Examples};

// Its contract says what is read of some sheets.
pub fn examples_hold()
    ensures value { Examples }
{}
