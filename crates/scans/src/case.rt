// The cases: a kind of text, and the lengths and the limit to try it with.
ghost use Rattle.std.specs.Prelude.{◌≤◌};

use std::fmt;

// The texts: repeats, a period of two, few letters, all byte values, words in both cases.
#[derive(Clone, Copy)]
pub(super) enum Kind {
    Repeats,
    Period,
    Letters,
    Values,
    Words,
}

// A term of `m` bytes with the limit `k`, in a stretch of `l` bytes.
#[derive(Clone, Copy)]
pub(super) struct Case {
    pub(super) kind: Kind,
    pub(super) m: usize,
    pub(super) k: usize,
    pub(super) l: usize,
}

// A number from a place, spread over its bits.
fn spread(i: usize) -> usize {
    ((i & 0xffff) as u32).wrapping_mul(2654435761) as usize >> 16
}

impl Kind {
    // Every kind, in order.
    pub(super) const ALL: [Kind; 5] = [
        Kind::Repeats,
        Kind::Period,
        Kind::Letters,
        Kind::Values,
        Kind::Words,
    ];

    // Byte `i` of the text, for terms of `m` bytes.
    fn byte(self, i: usize, m: usize) -> u8 {
        match self {
            Kind::Repeats => b'a',
            Kind::Period => b"ab"[i % 2],
            Kind::Letters => b"abAB \t\n\r"[spread(i) % 8],
            Kind::Values => ((i & 0xff) * 37 + 11 & 0xff) as u8,
            Kind::Words => {
                let b = b"the cat and "[i % m.max(1) % 12];
                match (i / m.max(1) % 3, b) {
                    (1, b' ') => b'\t',
                    (1, _) => b.to_ascii_uppercase(),
                    (2, b' ') => b'\n',
                    _ => b,
                }
            }
        }
    }

    // Where in the text the term is taken from.
    fn term_start(self) -> usize
        ensures { result ≤ 9 }
    {
        match self {
            Kind::Letters => 5,
            Kind::Values => 9,
            Kind::Repeats | Kind::Period | Kind::Words => 0,
        }
    }
}

impl Case {
    // The term's bytes, as many as can be asked for; the mask shows that a place in them is small.
    pub(super) fn term(self) -> [u8; 65] {
        std::array::from_fn(|i| self.kind.byte((i & 0xff) + self.kind.term_start(), self.m))
    }

    // The stretch's bytes, as many as can be asked for.
    pub(super) fn stretch(self) -> [u8; 128] {
        std::array::from_fn(|i| self.kind.byte(i, self.m))
    }
}

impl fmt::Display for Case {
    fn fmt<W: fmt::Write>(&self, f: &mut fmt::Formatter<W>) -> fmt::Result {
        write!(f, "{} {} {} {}", self.kind as u8, self.m, self.k, self.l)
    }
}
