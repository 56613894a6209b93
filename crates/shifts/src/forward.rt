// What differs between the matchers that shift their state: the table of a term, and how a state goes on by its words.
ghost use Rattle.std.specs.Prelude.{◌≡◌, ℕ, ◌≤◌, List, Bool, true, length, is_some, None, IfSome};
ghost use Rattle.std.specs.Coded.{Coded};
ghost use Rattle.rules.specs.Held.{term_of};
ghost use Rattle.rules.specs.Terms.{Term};
ghost use Rattle.matchers.specs.Matchers.{Fitting};
ghost use Rattle.matchers.specs.Places.{Filled, ends_at, held_places, state_after};

use rules::held::HeldTerm;

// A word for each byte, and the rule by which the words move a state on.
pub trait Forward: Drop {
    // the words and the states
    type Word: Copy;

    // how proofs tell two words apart
    ghost word_code: { Coded Self.Word };

    // whether a term of so many bytes with such a limit has a table
    ghost fit: { ℕ → ℕ → Bool };

    // a table's words, by byte
    ghost words: { Self → ℕ → Self.Word };

    // the words that a term's table has, by byte
    ghost words_of: { Term → ℕ → Self.Word };

    // the state before the first byte
    ghost start: { Self.Word };

    // the state after a byte, from the one before it and the byte's word
    ghost step: { Self.Word → Self.Word → Self.Word };

    // whether a state says of a term of so many bytes that it ends there
    ghost last: { ℕ → Self.Word → Bool };

    // Whether a term of `m` bytes with the limit `k` has a table.
    fn fits(m: usize, k: usize) -> bool
        ensures { result ≡ fit m k };

    // The table where no term is held.
    fn empty() -> Self
        ensures { Filled (words result) (words_of (held_places None)) };

    // The table of the term, where it has one.
    fn of(term: &HeldTerm) -> Option<Self>
        ensures fitting { is_some result ≡ fit (length (term_of term.now).bytes) (term_of term.now).limit }
        ensures rows { IfSome result (λ table. Filled (words table) (words_of (term_of term.now))) };

    // The byte's word.
    fn word(&self, b: u8) -> Self::Word
        ensures { result ≡ words self.now b };

    // The state before the first byte.
    fn start() -> Self::Word
        ensures { result ≡ start };

    // The state after a byte with the word, from the one before it.
    fn step(state: Self::Word, word: Self::Word) -> Self::Word
        ensures { result ≡ step state word };

    // Whether the state says that the term ends there.
    fn ends(state: Self::Word, term: &HeldTerm) -> bool
        ensures { result ≡ last (length (term_of term.now).bytes) state };

    // only what fits any matcher has a table
    ghost fitting: { (m k : ℕ) → fit m k ≡ true → Fitting m k };

    // the forward rule: the state after n bytes says so exactly when an occurrence ends there
    ghost forward: { (t : Term) (text : List ℕ) (n : ℕ) → fit (length t.bytes) t.limit ≡ true → n ≤ length text → last (length t.bytes) (state_after start step (words_of t) text n) ≡ ends_at t text (length t.bytes) n };
}
