// Running sums and drawn numbers.
ghost use Rattle.std.specs.Prelude.{◌≡◌};
ghost use Rattle.telling.specs.Sums.{drawn, mixed, sum_of};

// The running sum with one more value.
pub fn mixed(sum: u32, value: u32) -> u32
    ensures value { result ≡ mixed sum value }
{
    sum.wrapping_mul(31).wrapping_add(value)
}

// The running sum with the bytes, one after the other.
pub fn sum_of(sum: u32, bytes: &[u8]) -> u32
    ensures value { result ≡ sum_of sum bytes.now }
{
    bytes.iter().fold(sum, |sum, b| mixed(sum, *b as u32))
}

// The number drawn after this one; its high bits look as if drawn at random.
pub fn drawn(seed: u32) -> u32
    ensures value { result ≡ drawn seed }
{
    seed.wrapping_mul(1103515245).wrapping_add(12345)
}
