// What a pair board writes into its list.
ghost use Rattle.std.specs.Prelude.{◌≡◌};
ghost use Rattle.pair_board.specs.Entries.{is_for};

// A pair of a task and a core, what the task needs there and what it holds.
#[derive(Clone, Copy, Debug, PartialEq, Eq)]
pub struct Entry {
    pub task: u8,
    pub core: u8,
    pub need: u16,
    pub held: u16,
}

impl Entry {
    // Whether it is the entry of the pair.
    pub(crate) fn is_for(&self, task: usize, core: usize) -> bool
        ensures { result ≡ is_for self.now task core }
    {
        self.task as usize == task && self.core as usize == core
    }
}

// What a list may be filled with before it is lent: a board reads no entry that it has not written.
// Written out, since no constant's value calls a function.
pub const BLANK: Entry = Entry {
    task: 0,
    core: 0,
    need: 0,
    held: 0,
};
