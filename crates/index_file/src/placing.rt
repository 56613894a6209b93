// Bytes written into a lent buffer.
ghost use Rattle.std.specs.Prelude.{◌++◌};
ghost use Rattle.index_file.specs.Files.{Placed};

use rules::declined::Declined;
use rules::refusal::Refusal;

// The most bytes that a file can have, so that its end can count its locators.
const MOST: usize = 4294967295;

// Writes a record's two parts from `at` on where both fit; the state, and how far the file then reaches.
// Inlined, since at each call the lengths of most parts are known, and their bytes then go straight to the buffer.
#[inline(always)]
pub(super) fn place<S>(
    state: S,
    at: usize,
    buffer: &mut [u8],
    front: &[u8],
    rest: &[u8],
) -> Result<(S, usize), Declined<S>>
    ensures placed { Placed state at (front.now ++ rest.now) buffer.old result buffer.new }
{
    let length = front.len() + rest.len();
    let room = buffer.len().min(MOST);
    if length > room || at > room - length {
        return Err(Declined {
            refusal: Refusal::BufferTooSmall,
            back: state,
        });
    }
    let middle = at + front.len();
    let end = at + length;
    buffer[at..middle].copy_from_slice(front);
    buffer[middle..end].copy_from_slice(rest);
    Ok((state, end))
}
