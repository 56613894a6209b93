// A locator of the index.

// Where a term occurs: the start, its page counted from 1, its place in that page, and its variant, 0 where the text's bytes are the term's own and 1 otherwise.
// The variant stays a number, by the rule of the index file: its writer takes any byte there, and an enum would ask more of its callers.
#[derive(Clone, Copy, PartialEq, Eq, Debug)]
pub struct Locator {
    pub start: u16,
    pub page: u16,
    pub place: u16,
    pub variant: u8,
}
