// The paste-up's text and its calls.
ghost use Rattle.std.specs.Prelude.{◌≡◌, true, [], length, is_ok};
ghost use Rattle.galleys.specs.Galleys.{Put};
ghost use Rattle.layers.specs.Pasted.{Laid, Pasting, over, paste_list, pasted_text};
ghost use Rattle.layers.specs.PastedTexts.{over-text};

use super::paste::Paste;
use super::paste_up::PasteUp;
use super::pastes::Pastes;
use galleys::galley::Galley;
use rules::refusal::Refusal;

// Puts the pasted bytes into the galley, the last held first.
// The two parts of a paste-up are lent apart, since the one is changed while the other is read.
fn put_all<G: Galley>(galley: &mut G, pastes: &Pastes)
    ensures after { G.Galley.text galley.new ≡ over G.Galley.shows (G.Galley.text galley.old) (paste_list pastes.now) }
{
    for &Paste { at, byte } in pastes.list.iter().rev() {
        let _ = galley.put(at, byte);
    }
}

impl<G: Galley> PasteUp<G> {
    // The layer over the galley; nothing is pasted.
    pub fn new(below: G) -> PasteUp<G>
        ensures below { result.below ≡ below }
        ensures held { paste_list result.pastes ≡ [] }
    {
        PasteUp {
            below,
            pastes: Pastes::new(),
        }
    }

    // How many pasted bytes are held.
    pub fn held(&self) -> usize
        ensures value { result ≡ length (paste_list self.now.pastes) }
    {
        self.pastes.list.len()
    }

    // Writes the pasted bytes below and drops them; the text does not change.
    pub fn spill(&mut self)
        ensures below { G.Galley.text self.new.below ≡ pasted_text G.Galley self.old }
        ensures held { paste_list self.new.pastes ≡ [] }
    {
        put_all(&mut self.below, &self.pastes);
        self.pastes = Pastes::new();
    }

    // Pastes a byte, after a spill where one more would be one too many.
    fn paste(&mut self, at: usize, b: u8)
        ensures pasted { Pasting G.Galley self.old.below (paste_list self.old.pastes) at b self.new.below (paste_list self.new.pastes) }
    {
        if self.pastes.is_full(at) {
            self.spill();
        }
        self.pastes.paste(at, b);
    }

    // Lays the pasted bytes over a part of the text, which begins at `at`.
    fn lay(&self, at: usize, part: &mut [u8])
        ensures laid { Laid G.Galley.shows (paste_list self.now.pastes) at part.old part.new }
    {
        for &Paste { at: place, byte } in self.pastes.list.iter().rev() {
            if at <= place && place - at < part.len() {
                part[place - at] = self.below.show(byte);
            }
        }
    }

    // The galley below, after a spill, so that it has the paste-up's text.
    pub fn into_below(self) -> G
        ensures text { G.Galley.text result ≡ pasted_text G.Galley self }
    {
        let PasteUp { mut below, pastes } = self;
        put_all(&mut below, &pastes);
        below
    }
}

impl<G: Galley> Galley for PasteUp<G> {
    ghost text = { pasted_text G.Galley };

    ghost shows = { G.Galley.shows };

    ghost showing = { G.Galley.showing };

    ghost texts = { λ s. over-text G.Galley.shows (G.Galley.text s.below) G.Galley.showing (G.Galley.texts s.below) (paste_list s.pastes) };

    fn length(&self) -> usize {
        self.below.length()
    }

    fn show(&self, b: u8) -> u8 {
        self.below.show(b)
    }

    fn fetch(&self, at: usize, buffer: &mut [u8]) -> Result<(), Refusal> {
        self.below.fetch(at, buffer)?;
        self.lay(at, buffer);
        Ok(())
    }

    // What is held afterwards, and what stands below.
    fn put(&mut self, at: usize, b: u8) -> Result<(), Refusal>
        ensures put { Put (pasted_text G.Galley) self.old at (G.Galley.shows b) result self.new }
        ensures pasted { is_ok result ≡ true → Pasting G.Galley self.old.below (paste_list self.old.pastes) at b self.new.below (paste_list self.new.pastes) }
    {
        if at >= self.below.length() {
            return Err(Refusal::PastText);
        }
        self.paste(at, b);
        Ok(())
    }
}
