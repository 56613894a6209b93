// What a line of a term sheet says.

// A line's entry: `line` counts from 1, `byte` is the place of the line's first byte in the sheet, and `term` is a part of the sheet.
// Line and byte stay two fields, here and in a fault: as a struct of their own they would be taken apart wherever one is read or printed.
#[derive(Clone, Copy)]
pub struct Entry<'a> {
    pub line: usize,
    pub byte: usize,
    pub number: usize,
    pub limit: usize,
    pub term: &'a [u8],
}
