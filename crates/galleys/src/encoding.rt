// How a buffer holds a text.
ghost use Rattle.std.specs.Prelude.{◌≡◌, ℕ, ◌+◌, ◌<◌, ◌≤◌, List, length, take, drop, slice_set};
ghost use Rattle.galleys.specs.Galleys.{Showing, Text};

// The most bytes that a text can have.
pub(super) const MOST: usize = 16384;

// A way to hold a text of at most 16,384 bytes in the bytes of a buffer.
pub trait Encoding {
    // the text that a buffer's bytes hold
    ghost decoded: { List ℕ → List ℕ };

    // the byte that is shown for a byte
    ghost shows: { ℕ → ℕ };

    // what a shown byte, written at a place of the text, leaves of the whole buffer
    ghost Writes: { List ℕ → ℕ → ℕ → List ℕ → Type 0 };

    // How many bytes the text has.
    fn length(buffer: &[u8]) -> usize
        ensures value { result ≡ length (decoded buffer.now) };

    // The byte that is shown for `b`.
    fn show(b: u8) -> u8
        ensures value { result ≡ shows b };

    // Fills the whole part with the text from `at` on.
    fn read(buffer: &[u8], at: usize, part: &mut [u8])
        requires { at + length part.old ≤ length (decoded buffer.now) }
        ensures filled { part.new ≡ take (length part.old) (drop at (decoded buffer.now)) };

    // Makes the text's byte at `at` the one that is shown for `b`.
    fn write(buffer: &mut [u8], at: usize, b: u8)
        requires { at < length (decoded buffer.old) }
        ensures text { decoded buffer.new ≡ slice_set (decoded buffer.old) at (shows b) }
        ensures buffer { Writes buffer.old at (shows b) buffer.new };

    // what is shown is shown as itself, and a fold before it does not matter to its fold
    ghost showing: { Showing shows };

    // a text is short, and each of its bytes is shown as itself
    ghost texts: { (buffer : List ℕ) → Text shows (decoded buffer) };
}
