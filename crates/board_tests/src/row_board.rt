// A board of fixed arrays, with a row for each core; no core can be given more than 400 slots.
ghost use Rattle.board_tests.specs.Rows.{row_build, Made};

use board::fault::Fault;
use board::{Board, MOST_CORES, MOST_TASKS};

pub const GREATEST: u16 = 400;

// Needs and slots apart: a layout that neither of the other boards has.
#[derive(Clone, Copy)]
pub struct Row {
    capacity: u16,
    needs: [u16; MOST_TASKS],
    slots: [u16; MOST_TASKS],
}

#[derive(Drop)]
pub struct RowBoard {
    tasks: usize,
    cores: usize,
    rows: [Row; MOST_CORES],
}

const CLEAR: Row = Row {
    capacity: 0,
    needs: [0; MOST_TASKS],
    slots: [0; MOST_TASKS],
};

impl RowBoard {
    // A clear board, or the empty one where the sizes are not allowed.
    pub fn make(n: usize, m: usize) -> RowBoard
        ensures { Made n m result }
    {
        let (tasks, cores) = if board::sizes_allowed(n, m) {
            (n, m)
        } else {
            (0, 0)
        };
        RowBoard {
            tasks,
            cores,
            rows: [CLEAR; MOST_CORES],
        }
    }
}

impl Board for RowBoard {
    ghost build = { row_build };

    fn tasks(&self) -> usize {
        self.tasks
    }

    fn cores(&self) -> usize {
        self.cores
    }

    fn capacity(&self, core: usize) -> u16 {
        if core < self.cores {
            self.rows[core].capacity
        } else {
            0
        }
    }

    fn need(&self, task: usize, core: usize) -> u16 {
        if task < self.tasks && core < self.cores {
            self.rows[core].needs[task]
        } else {
            0
        }
    }

    fn held(&self, task: usize, core: usize) -> u16 {
        if task < self.tasks && core < self.cores {
            self.rows[core].slots[task]
        } else {
            0
        }
    }

    fn greatest_pairs(&self) -> usize {
        self.tasks * self.cores
    }

    fn greatest_capacity(&self, core: usize) -> u16 {
        if core < self.cores { GREATEST } else { 0 }
    }

    fn set_need(&mut self, task: usize, core: usize, need: u16) -> Result<(), Fault> {
        self.test_need(task, core, need)?;
        self.rows[core].needs[task] = need;
        Ok(())
    }

    fn set_held(&mut self, task: usize, core: usize, held: u16) -> Result<(), Fault> {
        self.test_held(task, core, held)?;
        self.rows[core].slots[task] = held;
        Ok(())
    }

    fn set_capacity(&mut self, core: usize, capacity: u16) -> Result<(), Fault> {
        self.test_capacity(core, capacity)?;
        self.rows[core].capacity = capacity;
        Ok(())
    }

    fn clear(&mut self) {
        self.rows = [CLEAR; MOST_CORES];
    }
}
