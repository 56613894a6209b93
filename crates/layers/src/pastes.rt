// The pasted bytes of a layer.
ghost use Rattle.std.specs.Prelude.{◌≤◌};
ghost use Rattle.arrayvec.specs.ArrayVec.{array_vec_len};

use super::paste::Paste;
use arrayvec::ArrayVec;

// At most 32 pasted bytes, the oldest first. They lie in the value itself, so that no call allocates.
#[derive(Drop)]
pub struct Pastes {
    pub(super) list: ArrayVec<Paste, 32>,
    ghost few: { array_vec_len list ≤ 32 },
}
