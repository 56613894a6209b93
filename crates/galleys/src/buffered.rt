// A galley that holds its text in a buffer of its own.
ghost use Rattle.std.specs.Prelude.{◌≡◌, true, is_ok};
ghost use Rattle.galleys.specs.Galleys.{Put};

use super::encoding::Encoding;
use super::galley::Galley;
use rules::refusal::Refusal;
use std::marker::PhantomData;

// The text is what the buffer holds in the encoding.
#[derive(Drop)]
pub struct Buffered<E: Encoding> {
    buffer: Vec<u8>,
    encoding: PhantomData<E>,
}

impl<E: Encoding> Buffered<E> {
    // The galley of the text in the buffer.
    pub fn new(buffer: Vec<u8>) -> Buffered<E>
        ensures value { result.buffer ≡ buffer }
    {
        Buffered {
            buffer,
            encoding: PhantomData,
        }
    }

    // The buffer, with what was put into it.
    pub fn into_buffer(self) -> Vec<u8>
        ensures value { result ≡ self.buffer }
    {
        let Buffered { buffer, .. } = self;
        buffer
    }
}

impl<E: Encoding> Galley for Buffered<E> {
    ghost text = { λ s. E.decoded s.buffer.items };

    ghost shows = { E.shows };

    ghost showing = { E.showing };

    ghost texts = { λ s. E.texts s.buffer.items };

    fn length(&self) -> usize {
        E::length(self.buffer.as_slice())
    }

    fn show(&self, b: u8) -> u8 {
        E::show(b)
    }

    fn fetch(&self, at: usize, buffer: &mut [u8]) -> Result<(), Refusal> {
        let n = self.length();
        let l = buffer.len();
        if l > n || at > n - l {
            return Err(Refusal::PastText);
        }
        E::read(self.buffer.as_slice(), at, buffer);
        Ok(())
    }

    // What changes in the whole buffer is the encoding's to say.
    fn put(&mut self, at: usize, b: u8) -> Result<(), Refusal>
        ensures put { Put (λ s. E.decoded s.buffer.items) self.old at (E.shows b) result self.new }
        ensures buffer { is_ok result ≡ true → E.Writes self.old.buffer.items at (E.shows b) self.new.buffer.items }
    {
        if at >= self.length() {
            return Err(Refusal::PastText);
        }
        E::write(self.buffer.as_mut_slice(), at, b);
        Ok(())
    }
}
