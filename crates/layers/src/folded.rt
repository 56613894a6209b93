// A layer that folds the text below it.
use galleys::galley::Galley;

// The text is the one below with each byte folded.
#[derive(Drop)]
pub struct FoldedGalley<G: Galley> {
    pub(super) below: G,
}
