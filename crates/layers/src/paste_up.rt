// A layer of pasted bytes over a galley.
use super::pastes::Pastes;
use galleys::galley::Galley;

// The text is the one below with the pasted bytes put in.
#[derive(Drop)]
pub struct PasteUp<G: Galley> {
    pub(super) below: G,
    pub(super) pastes: Pastes,
}
