// A byte pasted over a text.

// The byte, as it was put, and its place.
#[derive(Clone, Copy, Default)]
pub struct Paste {
    pub at: usize,
    pub byte: u8,
}
