// A galley of plain bytes.
ghost use Rattle.std.specs.Prelude.{◌≡◌, refl, slice_set};
ghost use Rattle.std.proofs.Common.{length-take, arith};
ghost use Rattle.galleys.specs.Byte.{byte_text};
ghost use Rattle.rules.proofs.Folds.{folded-folded};

use super::buffered::Buffered;
use super::encoding::{Encoding, MOST};

// The text is the first 16,384 bytes of the buffer, each shown as itself.
#[derive(Clone, Copy)]
pub struct Bytes;

// The galley of such a text.
pub type ByteGalley = Buffered<Bytes>;

impl Encoding for Bytes {
    ghost decoded = { byte_text };

    ghost shows = { λ b. b };

    ghost Writes = { λ old at b new. new ≡ slice_set old at b };

    ghost showing = { record { again = λ b. refl; fold = folded-folded } };

    ghost texts = { λ buffer. record { short = simp length-take (omega arith); shown = λ p l. refl } };

    fn length(buffer: &[u8]) -> usize {
        buffer.len().min(MOST)
    }

    fn show(b: u8) -> u8 {
        b
    }

    fn read(buffer: &[u8], at: usize, part: &mut [u8]) {
        let end = at + part.len();
        part.copy_from_slice(&buffer[at..end]);
    }

    fn write(buffer: &mut [u8], at: usize, b: u8) {
        buffer[at] = b;
    }
}
