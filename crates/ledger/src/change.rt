// Changes of the text.

// The `len` bytes from `at` on were changed.
#[derive(Clone, Copy, PartialEq, Eq, Debug)]
pub struct Change {
    pub at: u16,
    pub len: u8,
}
