// The rows of the term table.
ghost use Rattle.std.specs.Prelude.{◌≡◌, length};

use rules::held::HeldTerm;

// The term that stands in the row, or none.
#[derive(Clone, Copy)]
pub struct Row {
    pub(super) term: Option<HeldTerm>,
}

// A row for each number.
#[derive(Drop)]
pub struct Table {
    pub(super) rows: [Row; 16],
}

// The terms that stand, by their numbers.
#[derive(Drop)]
pub struct Terms {
    pub(super) table: Table,
    ghost sixteen: { length table.rows ≡ 16 },
}
