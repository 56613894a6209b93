// Marking starts as a matcher reads on.
ghost use Rattle.std.specs.Prelude.{◌≡◌, ◌+◌, ◌≤◌};
ghost use Rattle.shifts.specs.Marks.{marked_at};

// The word with the start marked whose `m` bytes are the last of the `read` ones, where an occurrence ends there.
pub(super) fn mark(word: u64, ends: bool, read: usize, m: usize) -> u64
    requires { read ≤ 63 + m }
    ensures { result ≡ marked_at word ends read m }
{
    if ends && m <= read {
        word | (1u64 << (read - m))
    } else {
        word
    }
}
