// How far a file has been read, and what its records say.
use records::fields::{CoreLine, PairLine, TaskLine};

// What may come next: the head, a core, a task, a need, slots, or nothing.
#[derive(Clone, Copy, PartialEq, Eq, Debug, Drop)]
pub enum Section {
    Head,
    Cores,
    Tasks,
    Needs,
    Slots,
    Ended,
}

// Pairs are ordered by task, then by core.
#[derive(Clone, Copy, PartialEq, Eq, PartialOrd, Ord, Debug, Drop)]
pub struct Pair {
    pub task: u8,
    pub core: u8,
}

// The sizes are those of the board to be filled; `core` and `task` are the numbers that come next.
#[derive(Clone, Copy, Drop)]
pub struct Reader {
    pub section: Section,
    pub letter: u8,
    pub tasks: usize,
    pub cores: usize,
    pub core: usize,
    pub task: usize,
    // The pair before, if there is one in this section.
    pub last: Option<Pair>,
}

// What one record says.
#[derive(Clone, Copy, Drop)]
pub enum Line<'a> {
    Head,
    Core(CoreLine),
    Task(TaskLine<'a>),
    Need(PairLine),
    Slots(PairLine),
    End,
}
