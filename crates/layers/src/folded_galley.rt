// The folded galley's text and its calls.
ghost use Rattle.std.specs.Prelude.{◌≡◌, map};
ghost use Rattle.rules.specs.Terms.{folded};
ghost use Rattle.galleys.specs.Galleys.{Put};
ghost use Rattle.layers.specs.Folded.{folded_text, folded_shown};
ghost use Rattle.layers.specs.FoldedTexts.{folded-showing, folded-text};

use super::folded::FoldedGalley;
use galleys::galley::Galley;
use rules::bytes::fold;
use rules::refusal::Refusal;

// Folds each byte.
fn fold_all(bytes: &mut [u8])
    ensures after { bytes.new ≡ map folded bytes.old }
{
    for b in bytes.iter_mut() {
        *b = fold(*b);
    }
}

impl<G: Galley> FoldedGalley<G> {
    // The layer over the galley.
    pub fn new(below: G) -> FoldedGalley<G>
        ensures value { result.below ≡ below }
    {
        FoldedGalley { below }
    }

    // The galley below, with what was put into it.
    pub fn into_below(self) -> G
        ensures value { result ≡ self.below }
    {
        let FoldedGalley { below } = self;
        below
    }
}

impl<G: Galley> Galley for FoldedGalley<G> {
    ghost text = { λ s. folded_text (G.Galley.text s.below) };

    ghost shows = { λ b. folded_shown G.Galley.shows b };

    ghost showing = { folded-showing G.Galley.shows G.Galley.showing };

    ghost texts = { λ s. folded-text G.Galley.shows (G.Galley.text s.below) G.Galley.showing (G.Galley.texts s.below) };

    fn length(&self) -> usize {
        self.below.length()
    }

    fn show(&self, b: u8) -> u8 {
        fold(self.below.show(b))
    }

    fn fetch(&self, at: usize, buffer: &mut [u8]) -> Result<(), Refusal> {
        self.below.fetch(at, buffer)?;
        fold_all(buffer);
        Ok(())
    }

    // The byte goes below as it is.
    fn put(&mut self, at: usize, b: u8) -> Result<(), Refusal>
        ensures put { Put (λ s. folded_text (G.Galley.text s.below)) self.old at (folded_shown G.Galley.shows b) result self.new }
        ensures below { Put G.Galley.text self.old.below at (G.Galley.shows b) result self.new.below }
    {
        self.below.put(at, b)
    }
}
