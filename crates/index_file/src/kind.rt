// The kinds of records.
ghost use Rattle.std.specs.Prelude.{◌≡◌};
ghost use Rattle.index_file.specs.Kinds.{kind_number};

// Each kind has the number that stands in its records.
#[derive(Clone, Copy, PartialEq, Eq, Debug)]
pub enum Kind {
    Head = 1,
    Term = 2,
    Locator = 3,
    End = 4,
}

impl From<Kind> for u8 {
    ghost from_gives = { λ kind number. number ≡ kind_number kind };

    // The number that stands in the kind's records.
    fn from(kind: Kind) -> u8 {
        kind as u8
    }
}
