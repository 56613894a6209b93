// The table of page starts.
ghost use Rattle.std.specs.Prelude.{◌≡◌, ◌≤◌, slice_index};
ghost use Rattle.arrayvec.specs.ArrayVec.{array_vec_len};
ghost use Rattle.std.specs.List.Sorted.{IsNonDecreasing};

use arrayvec::ArrayVec;

// The starts of the pages that are open, ascending; the first page starts at 0.
#[derive(Drop)]
pub struct Pages {
    pub(super) starts: ArrayVec<u16, 256>,
    ghost some: { 1 ≤ array_vec_len starts },
    ghost most: { array_vec_len starts ≤ 256 },
    ghost first: { slice_index starts.items 0 ≡ 0 },
    ghost ascending: { IsNonDecreasing starts.items },
}

// A page, counted from 1, and a place in it, counted from 0.
#[derive(Clone, Copy)]
pub struct PagePlace {
    pub page: u16,
    pub place: u16,
}
