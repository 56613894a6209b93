// Whether a term's own bytes stand at a start.
ghost use Rattle.std.specs.Prelude.{◌≡◌, length};
ghost use Rattle.rules.specs.Held.{term_of};
ghost use Rattle.rules.specs.Terms.{occurs, variant_at};

use galleys::galley::Galley;
use rules::held::HeldTerm;

// Whether the text's bytes from `start` on, fetched into the buffer, are these.
fn stands_at<G: Galley>(galley: &G, bytes: &[u8], start: usize, buffer: &mut [u8]) -> bool
    requires { length buffer.old ≡ length bytes.now }
    ensures value { result ≡ occurs (record { bytes = bytes.now; limit = 0 }) (G.Galley.text galley.now) start }
{
    galley.fetch(start, buffer).is_ok() && *buffer == *bytes
}

// The variant of the term at the start.
pub(super) fn variant_at<G: Galley>(galley: &G, term: &HeldTerm, start: u16) -> u8
    ensures value { result ≡ variant_at (term_of term.now) (G.Galley.text galley.now) start }
{
    // an array cut to its length, since no call may allocate and a fetch fills what it is lent
    let mut buffer = [0u8; 64];
    let bytes = term.bytes();
    let own = stands_at(galley, bytes, start as usize, &mut buffer[0..bytes.len()]);
    u8::from(!own)
}
