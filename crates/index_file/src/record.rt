// What the records hold.

// The first record of a file: the length of the text, the units owed, how many terms stand.
#[derive(Clone, Copy)]
pub struct Head {
    pub n: u32,
    pub owed: u16,
    pub terms: u16,
}

// A term: its number, its limit and its bytes.
#[derive(Clone, Copy)]
pub struct Term<'a> {
    pub number: u8,
    pub limit: u8,
    pub bytes: &'a [u8],
}
