// Bytes and how they match.
ghost use Rattle.std.specs.Prelude.{◌≡◌};
ghost use Rattle.rules.specs.Terms.{folded, same_byte};

// The byte as it matches in either case: a capital as its small letter, a tab or a line's end as a space.
pub fn fold(b: u8) -> u8
    ensures value { result ≡ folded b }
{
    match b as char {
        'A'..='Z' => b + 32,
        '\t' | '\n' | '\r' => b' ',
        _ => b,
    }
}

// Whether the byte `b` matches `p`, byte `i` of a term with the limit `k`.
pub fn byte_matches(k: usize, i: usize, p: u8, b: u8) -> bool
    ensures value { result ≡ same_byte k i p b }
{
    b == p || (i < k && fold(b) == fold(p))
}
