// The matchers that shift their state, over any table.
ghost use Rattle.std.specs.Prelude.{◌≡◌, length, true, None};
ghost use Rattle.std.specs.Option.{ForSome};
ghost use Rattle.rules.specs.Held.{term_of};
ghost use Rattle.matchers.specs.Matchers.{of_term, of_stretch};
ghost use Rattle.matchers.specs.Places.{Filled, held_places, state_after};
ghost use Rattle.shifts.specs.Filled.{Filled-prop};

use super::forward::Forward;
use super::starts::mark;
use matchers::asked::held_for;
use matchers::matcher::Matcher;
use rules::held::HeldTerm;
use rules::refusal::Refusal;

// The term it was prepared for, if any, and the table of its words. The table stands beside the Option and not in it, since a new matcher is held to one too: that of a term with no place, which the edits of `new` are to break.
#[derive(Drop)]
pub struct Shifting<T: Forward> {
    table: T,
    term: Option<HeldTerm>,
    ghost filled: { Filled (T.words table) (T.words_of (held_places term)) } by { Filled-prop T.word_code (T.words table) (T.words_of (held_places term)) },
    ghost fits: { ForSome term (λ h. T.fit (length (term_of h).bytes) (term_of h).limit ≡ true) },
}

impl<T: Forward> Shifting<T> {
    ghost use Rattle.shifts.specs.Shiftings.{shifting_term};

    // A matcher that holds no term.
    pub fn new() -> Shifting<T>
        ensures value { shifting_term result ≡ None }
    {
        Shifting {
            table: T::empty(),
            term: None,
        }
    }

    // The table's word for the byte.
    pub fn table_word(&self, b: u8) -> Result<T::Word, Refusal>
        ensures value { result ≡ of_term (λ t. T.words_of t b) (shifting_term self.now) }
    {
        self.term.ok_or(Refusal::NoTermHeld)?;
        Ok(self.table.word(b))
    }

    // The state after the bytes were read, one after the other.
    pub fn state(&self, read: &[u8]) -> Result<T::Word, Refusal>
        ensures value { result ≡ of_stretch (λ t text. state_after T.start T.step (T.words_of t) text (length text)) (shifting_term self.now) read.now }
    {
        held_for(&self.term, read)?;
        let state = read
            .iter()
            .fold(T::start(), |state, b| T::step(state, self.table.word(*b)));
        Ok(state)
    }
}

impl<T: Forward> Matcher for Shifting<T> {
    ghost use Rattle.shifts.specs.Shiftings.{shifting_term};

    ghost held = { shifting_term };

    ghost fit = { λ _. T.fit };

    ghost fitting = { λ _. T.fitting };

    fn fits(&self, m: usize, k: usize) -> bool {
        T::fits(m, k)
    }

    fn prepare(&mut self, term: &[u8], k: usize) -> Result<(), Refusal> {
        let held = HeldTerm::new(term, k)?;
        let table = T::of(&held).ok_or(Refusal::TermUnfit)?;
        *self = Shifting {
            table,
            term: Some(held),
        };
        Ok(())
    }

    fn scan(&self, stretch: &[u8]) -> Result<u64, Refusal> {
        let term = held_for(&self.term, stretch)?;
        let m = term.bytes().len();
        let mut state = T::start();
        let mut word = 0;
        for (n, b) in stretch.iter().enumerate().take(63 + m) {
            state = T::step(state, self.table.word(*b));
            word = mark(word, T::ends(state, term), n + 1, m);
        }
        Ok(word)
    }
}
