// A term as a galley shows it.
ghost use Rattle.std.specs.Prelude.{◌≡◌, map};
ghost use Rattle.rules.specs.Held.{Held};

use arrayvec::ArrayVec;
use galleys::galley::Galley;
use rules::held::HeldTerm;
use rules::refusal::Refusal;

// Makes each byte the one that the galley shows for it.
fn show_all<G: Galley>(galley: &G, bytes: &mut [u8])
    ensures after { bytes.new ≡ map G.Galley.shows bytes.old }
{
    for b in bytes.iter_mut() {
        *b = galley.show(*b);
    }
}

// The term, each byte as the galley shows it, where there can be such a term.
pub(super) fn shown_term<G: Galley>(
    galley: &G,
    term: &[u8],
    limit: usize,
) -> Result<HeldTerm, Refusal>
    ensures cases { Held (map G.Galley.shows term.now) limit result }
{
    let mut shown: ArrayVec<u8, 64> = ArrayVec::new();
    shown
        .try_extend_from_slice(term)
        .map_err(|_| Refusal::TermLength)?;
    show_all(galley, shown.as_mut_slice());
    HeldTerm::new(shown.as_slice(), limit)
}
