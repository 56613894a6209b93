// A term held in place.
ghost use Rattle.std.specs.Prelude.{◌≡◌, ◌<◌, ◌≤◌, length};

// A term of 1 to 64 bytes whose limit is below its length: bytes[0..len] are its bytes.
// They stay an array with its length: a held term may be copied, which no vector may, so every reader of a row would have to clone it, and could fail.
#[derive(Clone, Copy)]
pub struct HeldTerm {
    pub(super) bytes: [u8; 64],
    pub(super) len: u8,
    pub(super) limit: u8,
    ghost whole: { length bytes ≡ 64 },
    ghost short: { len ≤ 64 },
    ghost limited: { limit < len },
}
