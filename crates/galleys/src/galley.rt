// What holds a text: one description for every galley and every layer over one.
ghost use Rattle.std.specs.Prelude.{◌≡◌, ℕ, List, length};
ghost use Rattle.galleys.specs.Galleys.{Showing, Text, Fetched, Put};

use rules::refusal::Refusal;

// A galley means a text of at most 16,384 bytes; its kind fixes what it shows for each byte that is put.
pub trait Galley {
    // the bytes it holds, place by place from 0
    ghost text: { Self → List ℕ };

    // the byte that it shows for a byte
    ghost shows: { ℕ → ℕ };

    // How many bytes the text has; no call changes it.
    fn length(&self) -> usize
        ensures value { result ≡ length (text self.now) };

    // The byte that the galley shows for `b`.
    fn show(&self, b: u8) -> u8
        ensures value { result ≡ shows b };

    // Fills the whole buffer with the text from `at` on.
    fn fetch(&self, at: usize, buffer: &mut [u8]) -> Result<(), Refusal>
        ensures fetched { Fetched (text self.now) at buffer.old result buffer.new };

    // Makes the text's byte at `at` the one that the galley shows for `b`.
    fn put(&mut self, at: usize, b: u8) -> Result<(), Refusal>
        ensures put { Put text self.old at (shows b) result self.new };

    ghost showing: { Showing shows };

    ghost texts: { (s : Self) → Text shows (text s) };
}
