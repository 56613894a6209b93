// What finds a term in a stretch: one description for every method.
ghost use Rattle.std.specs.Prelude.{◌≡◌, ℕ, Bool, true, Option};
ghost use Rattle.rules.specs.Terms.{Term};
ghost use Rattle.matchers.specs.Matchers.{Fitting, Prepared, scanning};

use rules::refusal::Refusal;

// A matcher means the term that it holds, or none, and a fixed yes or no for each length and limit.
pub trait Matcher {
    // the term it holds
    ghost held: { Self → Option Term };

    // whether a term of so many bytes with such a limit fits it; no call changes this
    ghost fit: { Self → ℕ → ℕ → Bool };

    // Whether a term of `m` bytes with the limit `k` fits.
    fn fits(&self, m: usize, k: usize) -> bool
        ensures value { result ≡ fit self.now m k };

    // Makes the matcher hold the term.
    fn prepare(&mut self, term: &[u8], k: usize) -> Result<(), Refusal>
        ensures prepared { Prepared held fit self.old term.now k result self.new };

    // The word of the stretch: bit s, of 64, is set exactly when the held term occurs in the stretch at s.
    fn scan(&self, stretch: &[u8]) -> Result<u64, Refusal>
        ensures value { result ≡ scanning (held self.now) stretch.now };

    ghost fitting: { (s : Self) (m k : ℕ) → fit s m k ≡ true → Fitting m k };
}
