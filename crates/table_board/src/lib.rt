// A board that lies in a lent slice of 16-bit numbers: the needs, then the slots held, both task by task, then the capacities.
#![tactic(auto)]

ghost use Rattle.std.specs.Prelude.{◌≡◌, ◌+◌, ◌*◌, ◌<◌, ◌≤◌, length};
ghost use Rattle.board.specs.Meaning.{most_tasks, most_cores};
ghost use Rattle.board.specs.Outcomes.{checked};
ghost use Rattle.board.specs.Boards.{Good};
ghost use Rattle.table_board.specs.Cells.{Wiped, numbers, table_fits};
ghost use Rattle.table_board.specs.Table.{Made, table_build, taken};

use board::fault::{Fault, Refusal};
use board::{Board, MOST_CORES, MOST_SLOTS, MOST_TASKS};

// How many numbers the largest board takes.
pub const MOST_NUMBERS: usize = 2 * (MOST_TASKS * MOST_CORES) + MOST_CORES;

// The one slice is the layout that its lenders are told.
#[derive(Drop)]
pub struct TableBoard<'a> {
    tasks: usize,
    cores: usize,
    cells: &'a mut [u16],
}

// How many numbers a board of n tasks and m cores takes.
fn numbers(n: usize, m: usize) -> usize
    requires few_tasks { n ≤ most_tasks }
    requires few_cores { m ≤ most_cores }
    ensures { result ≡ numbers n m }
{
    2 * (n * m) + m
}

// Sets the first numbers to 0.
fn wipe(cells: &mut [u16], count: usize)
    requires { count ≤ length cells.old }
    ensures { Wiped count cells.old cells.new }
{
    cells[..count].fill(0);
}

impl<'a> TableBoard<'a> {
    // Tells whether `make` can make a board of n tasks and m cores there.
    pub fn check(n: usize, m: usize, cells: &[u16]) -> Result<(), Fault>
        ensures { result ≡ checked (table_fits n m (length cells.now)) }
    {
        if board::sizes_allowed(n, m) && numbers(n, m) <= cells.len() {
            Ok(())
        } else {
            Err(Refusal::CannotBeMade.at(0))
        }
    }

    // A clear board; where the check refuses, the empty board, and the memory stays as it was.
    pub fn make(n: usize, m: usize, cells: &'a mut [u16]) -> TableBoard<'a>
        ensures { Made n m cells.entry result }
    {
        let (tasks, cores) = if TableBoard::check(n, m, cells).is_err() {
            (0, 0)
        } else {
            (n, m)
        };
        wipe(cells, numbers(tasks, cores));
        TableBoard {
            tasks,
            cores,
            cells,
        }
    }
}

// Places are numbers and no Options, since a set call has tested the pair before it asks for one.
impl TableBoard<'_> {
    // Where a pair's need stands.
    fn need_place(&self, task: usize, core: usize) -> usize
        requires good { Good table_build self.now }
        requires on_tasks { task < self.now.tasks }
        requires on_cores { core < self.now.cores }
        ensures place { result ≡ task * self.now.cores + core }
        ensures inside { result < self.now.tasks * self.now.cores }
    {
        task * self.cores + core
    }

    // Where the slots that a task holds of a core stand.
    fn held_place(&self, task: usize, core: usize) -> usize
        requires good { Good table_build self.now }
        requires on_tasks { task < self.now.tasks }
        requires on_cores { core < self.now.cores }
        ensures place { result ≡ self.now.tasks * self.now.cores + (task * self.now.cores + core) }
        ensures inside { result < 2 * (self.now.tasks * self.now.cores) }
    {
        self.tasks * self.cores + self.need_place(task, core)
    }

    // Where a core's capacity stands.
    fn capacity_place(&self, core: usize) -> usize
        requires good { Good table_build self.now }
        requires on_cores { core < self.now.cores }
        ensures place { result ≡ 2 * (self.now.tasks * self.now.cores) + core }
        ensures inside { result < taken self.now }
    {
        2 * (self.tasks * self.cores) + core
    }
}

impl<'a> Board for TableBoard<'a> {
    ghost build = { table_build };

    fn tasks(&self) -> usize {
        self.tasks
    }

    fn cores(&self) -> usize {
        self.cores
    }

    fn capacity(&self, core: usize) -> u16 {
        if core < self.cores {
            self.cells[self.capacity_place(core)]
        } else {
            0
        }
    }

    fn need(&self, task: usize, core: usize) -> u16 {
        if task < self.tasks && core < self.cores {
            self.cells[self.need_place(task, core)]
        } else {
            0
        }
    }

    fn held(&self, task: usize, core: usize) -> u16 {
        if task < self.tasks && core < self.cores {
            self.cells[self.held_place(task, core)]
        } else {
            0
        }
    }

    fn greatest_pairs(&self) -> usize {
        self.tasks * self.cores
    }

    fn greatest_capacity(&self, core: usize) -> u16 {
        if core < self.cores { MOST_SLOTS } else { 0 }
    }

    // Every pair has its place in the table, so there is no need to count them.
    fn has_place(&self, task: usize, core: usize) -> bool {
        task < self.tasks && core < self.cores || self.pair_count() < self.greatest_pairs()
    }

    fn set_need(&mut self, task: usize, core: usize, need: u16) -> Result<(), Fault> {
        self.test_need(task, core, need)?;
        let at = self.need_place(task, core);
        self.cells[at] = need;
        Ok(())
    }

    fn set_held(&mut self, task: usize, core: usize, held: u16) -> Result<(), Fault> {
        self.test_held(task, core, held)?;
        let at = self.held_place(task, core);
        self.cells[at] = held;
        Ok(())
    }

    fn set_capacity(&mut self, core: usize, capacity: u16) -> Result<(), Fault> {
        self.test_capacity(core, capacity)?;
        let at = self.capacity_place(core);
        self.cells[at] = capacity;
        Ok(())
    }

    fn clear(&mut self) {
        wipe(self.cells, numbers(self.tasks, self.cores));
    }
}
