// Four six-bit codes in three bytes.
ghost use Rattle.std.specs.Prelude.{◌≡◌, ◌+◌, ◌*◌, ◌<◌, length};
ghost use Rattle.galleys.specs.Packing.{Recoded, characters, code_at, code_in, group, recoded_group};

// A six-bit code.
#[derive(Clone, Copy)]
pub(super) struct Code {
    pub(super) value: u8,
    ghost six: { value < 64 },
}

// The three bytes of a group as one number.
#[derive(Clone, Copy)]
struct Group {
    bits: u32,
    ghost three: { bits < 16777216 },
}

impl Group {
    // Group `g` of the buffer.
    fn of(buffer: &[u8], g: usize) -> Group
        requires { 3 * g + 2 < length buffer.now }
        ensures value { result.bits ≡ group buffer.now g }
    {
        Group {
            bits: u32::from_be_bytes([0, buffer[3 * g], buffer[3 * g + 1], buffer[3 * g + 2]]),
        }
    }

    // Its code `r`, of four.
    fn code(self, r: usize) -> Code
        requires { r < 4 }
        ensures value { result.value ≡ code_in self.bits r }
    {
        Code {
            value: ((self.bits >> (18 - 6 * r)) % 64) as u8,
        }
    }

    // The group with its code `r`, of four, made another one.
    fn recoded(self, r: usize, code: Code) -> Group
        requires { r < 4 }
        ensures value { result.bits ≡ recoded_group self.bits r code.value }
    {
        let shift = 18 - 6 * r;
        let old = (self.bits >> shift) % 64;
        Group {
            bits: self.bits - (old << shift) + ((code.value as u32) << shift),
        }
    }
}

// The code of character `p`.
pub(super) fn code_at(buffer: &[u8], p: usize) -> Code
    requires { p < characters (length buffer.now) }
    ensures value { result.value ≡ code_at buffer.now p }
{
    Group::of(buffer, p / 4).code(p % 4)
}

// Makes the code of character `at` another one, and leaves every other.
pub(super) fn recode(buffer: &mut [u8], at: usize, code: Code)
    requires { at < characters (length buffer.old) }
    ensures recoded { Recoded buffer.old at code.value buffer.new }
{
    let g = at / 4;
    let group = Group::of(buffer, g).recoded(at % 4, code);
    let [_, high, middle, low] = group.bits.to_be_bytes();
    buffer[3 * g] = high;
    buffer[3 * g + 1] = middle;
    buffer[3 * g + 2] = low;
}
