// The states of a file that is being written. They are plain numbers that move from call to call; none may be let go or copied, so a file that was begun is ended.
ghost use Rattle.std.specs.Prelude.{◌≡◌, ◌≤◌};

// A file that has no head yet; it reaches nowhere.
pub struct Unheaded {
    pub(super) at: usize,
    ghost start: { at ≡ 0 },
}

// A file that has its head: how far it reaches, and how many locators it has.
pub struct Headed {
    pub(super) at: usize,
    pub(super) locators: u32,
    ghost short: { at ≤ 4294967295 },
    ghost counted: { locators ≤ at },
}
