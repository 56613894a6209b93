// Term numbers.
ghost use Rattle.std.specs.Prelude.{◌<◌};

// A number under which a term can stand, 0 to 15.
#[derive(Clone, Copy, PartialEq, Eq, Debug)]
pub struct TermNumber {
    pub(super) value: u8,
    ghost below: { value < 16 },
}
