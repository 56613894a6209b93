// A matcher that compares plainly, byte by byte; every term fits it.
ghost use Rattle.std.specs.Prelude.{◌≡◌, ℕ, ◌+◌, ◌<◌, ◌≤◌, length, None, nat_le, nat_lt};
ghost use Rattle.rules.specs.Held.{term_of};
ghost use Rattle.rules.specs.Terms.{front, scanned};
ghost use Rattle.matchers.specs.Compare.{comparer_term, comparer_fits};
ghost use Rattle.std.proofs.Common.{rules};

use super::asked::held_for;
use super::matcher::Matcher;
use rules::bytes::byte_matches;
use rules::held::HeldTerm;
use rules::refusal::Refusal;

// The term it was prepared for, if any.
#[derive(Drop)]
pub struct Comparer {
    term: Option<HeldTerm>,
}

impl Comparer {
    // A comparer that holds no term.
    pub fn new() -> Comparer
        ensures value { comparer_term result ≡ None }
    {
        Comparer { term: None }
    }
}

// Whether the term's bytes are matched by those of the stretch from `s` on.
fn matches_at(term: &HeldTerm, stretch: &[u8], s: usize) -> bool
    requires { s + length (term_of term.now).bytes ≤ length stretch.now }
    ensures { result ≡ front (term_of term.now) stretch.now s (length (term_of term.now).bytes) }
{
    let bytes = term.bytes();
    let limit = term.limit();
    for i in 0..bytes.len() {
        if !byte_matches(limit, i, bytes[i], stretch[s + i]) {
            return false;
        }
    }
    true
}

// How many of the first 64 starts have the term's end within the stretch.
fn starts(m: usize, l: usize) -> usize
    ensures within { (s : ℕ) → s < 64 → nat_lt s result ≡ nat_le (s + m) l }
    ensures bound { result ≤ 64 }
{
    if m > l {
        return 0;
    }
    (l - m).min(63) + 1
}

// The word of the term in the stretch. Its places are counted, here and in `matches_at`: going over the windows, and over the pairs of one, takes one and a half to two times as long.
fn word(term: &HeldTerm, stretch: &[u8]) -> u64
    ensures { result ≡ scanned (term_of term.now) stretch.now }
{
    let mut word = 0;
    for s in 0..starts(term.bytes().len(), stretch.len()) {
        if matches_at(term, stretch, s) {
            word |= 1u64 << s;
        }
    }
    word
}

impl Matcher for Comparer {
    ghost held = { comparer_term };

    ghost fit = { λ _. comparer_fits };

    ghost fitting = { Prim.search rules };

    // Every matcher has such a line, with a number or a limit of its own: a shared call would owe a contract and an edit for it.
    fn fits(&self, m: usize, k: usize) -> bool {
        (1..=64).contains(&m) && k < m
    }

    fn prepare(&mut self, term: &[u8], k: usize) -> Result<(), Refusal> {
        self.term = Some(HeldTerm::new(term, k)?);
        Ok(())
    }

    fn scan(&self, stretch: &[u8]) -> Result<u64, Refusal> {
        let term = held_for(&self.term, stretch)?;
        Ok(word(term, stretch))
    }
}
