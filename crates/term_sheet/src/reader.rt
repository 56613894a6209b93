// A reader that stands in a term sheet.
ghost use Rattle.std.specs.Prelude.{◌≤◌, length};

// What is left to read is sheet[at..], which begins with a line or is empty; `passed` lines stand before it.
#[derive(Drop)]
pub struct Reader<'a> {
    pub(super) sheet: &'a [u8],
    pub(super) at: usize,
    pub(super) passed: usize,
    ghost within: { at ≤ length sheet.now },
    ghost counted: { passed ≤ at },
}
