// A galley of six-bit characters, as the old typesetter kept its text.
ghost use Rattle.std.specs.Prelude.{◌-◌};
ghost use Rattle.galleys.specs.Packing.{Recoded};
ghost use Rattle.galleys.specs.SixBit.{six_shown, six_text};
ghost use Rattle.galleys.specs.SixBitTexts.{six-texts};
ghost use Rattle.std.proofs.Common.{rules};

use super::buffered::Buffered;
use super::encoding::{Encoding, MOST};
use super::packing::{Code, code_at, recode};

// Each three bytes of the buffer hold four characters, highest bits first; a character's code is its byte less 32. The text is the first 16,384 characters of the whole groups.
#[derive(Clone, Copy)]
pub struct SixBits;

// The galley of such a text.
pub type SixBitGalley = Buffered<SixBits>;

impl Encoding for SixBits {
    ghost decoded = { six_text };

    ghost shows = { six_shown };

    ghost Writes = { λ old at b new. Recoded old at (b - 32) new };

    ghost showing = { Prim.search rules };

    ghost texts = { six-texts };

    fn length(buffer: &[u8]) -> usize {
        (buffer.len() / 3 * 4).min(MOST)
    }

    // A small letter is shown as its capital, what there is no code for as a space.
    fn show(b: u8) -> u8 {
        match b as char {
            ' '..='_' => b,
            'a'..='z' => b - 32,
            _ => b' ',
        }
    }

    fn read(buffer: &[u8], at: usize, part: &mut [u8]) {
        for (i, b) in part.iter_mut().enumerate() {
            *b = 32 + code_at(buffer, at + i).value;
        }
    }

    fn write(buffer: &mut [u8], at: usize, b: u8) {
        let code = Code {
            value: SixBits::show(b) - 32,
        };
        recode(buffer, at, code);
    }
}
