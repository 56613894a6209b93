// Bytes up to a mark, and the number that a field writes.
ghost use Rattle.std.specs.Prelude.{◌≡◌};
ghost use Rattle.std.specs.Option.{option_map};
ghost use Rattle.term_sheet.specs.Fields.{before, behind, field_value};

// What stands before the first `x`, and what follows it, where there is one.
pub(super) fn cut(bytes: &[u8], x: u8) -> (&[u8], Option<&[u8]>)
    ensures front { result.0.now ≡ before x bytes.now }
    ensures back { option_map (λ x. x.now) result.1 ≡ behind x bytes.now }
{
    match bytes.iter().position(|b| *b == x) {
        Some(i) => (&bytes[..i], Some(&bytes[i + 1..])),
        None => (bytes, None),
    }
}

// The number that a field of 1 to 3 digits writes.
pub(super) fn field_value(field: &[u8]) -> Option<usize>
    ensures value { result ≡ field_value field.now }
{
    if field.is_empty() || field.len() > 3 {
        return None;
    }
    let mut value = 0;
    for b in field {
        if !b.is_ascii_digit() {
            return None;
        }
        value = value * 10 + (*b - b'0') as usize;
    }
    Some(value)
}
