// Looking for, adding and replacing pasted bytes.
ghost use Rattle.std.specs.Prelude.{◌≡◌, false, [], ◌==◌, position};
ghost use Rattle.layers.specs.Pasted.{is_full, paste_in, paste_list};

use super::paste::Paste;
use super::pastes::Pastes;
use arrayvec::ArrayVec;

impl Pastes {
    // None is held.
    pub(super) fn new() -> Pastes
        ensures value { paste_list result ≡ [] }
    {
        Pastes {
            list: ArrayVec::new(),
        }
    }

    // Which of them has the place.
    fn find(&self, at: usize) -> Option<usize>
        ensures value { result ≡ position (λ p. p.at == at) (paste_list self.now) }
    {
        self.list.iter().position(|paste| paste.at == at)
    }

    // Whether one more place would be one too many.
    pub(super) fn is_full(&self, at: usize) -> bool
        ensures value { result ≡ is_full (paste_list self.now) at }
    {
        let full = self.list.len() >= 32;
        full && self.find(at).is_none()
    }

    // Replaces the byte at the place, or adds it.
    pub(super) fn paste(&mut self, at: usize, byte: u8)
        requires { is_full (paste_list self.old) at ≡ false }
        ensures after { paste_list self.new ≡ paste_in (paste_list self.old) at byte }
    {
        let paste = Paste { at, byte };
        match self.find(at) {
            Some(i) => self.list[i] = paste,
            None => self.list.push(paste),
        }
    }
}
