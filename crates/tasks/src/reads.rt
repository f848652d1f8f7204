// What a task table answers.
ghost use Rattle.std.specs.Prelude.{◌≡◌, ℕ, ◌≤◌, true, map, length, slice_index_or};
ghost use Rattle.tasks.specs.Names.{printable_name};
ghost use Rattle.tasks.specs.Rows.{row_of};
ghost use Rattle.tasks.specs.Table.{rows, name_in, weight_in};

use crate::table::TaskTable;
use crate::task::Task;
use board::MOST_TASKS;

impl TaskTable {
    pub fn len(&self) -> usize
        ensures { result ≡ length (rows self.now) }
    {
        self.count
    }

    // The bytes of a task's name; none for a task that the table does not have.
    pub fn name(&self, task: usize) -> &[u8]
        ensures name { result.now ≡ name_in (rows self.now) task }
        ensures short { length result.now ≤ 12 }
        ensures shown { printable_name result.now ≡ true }
    {
        match self.tasks().get(task) {
            Some(task) => task.name.as_bytes(),
            None => &[],
        }
    }

    // 1 for a task that the table does not have.
    pub fn weight(&self, task: usize) -> u8
        ensures { result ≡ weight_in (rows self.now) task }
    {
        match self.tasks().get(task) {
            Some(task) => task.weight,
            None => 1,
        }
    }

    // The weights of all tasks that an order can have.
    pub fn weights(&self) -> [u8; MOST_TASKS]
        ensures all { length result ≡ 64 }
        ensures each { (task : ℕ) → slice_index_or result task 1 ≡ weight_in (rows self.now) task }
        ensures fit { (task : ℕ) → (1 ≤ slice_index_or result task 1) × (slice_index_or result task 1 ≤ 100) }
    {
        let mut weights = [1; MOST_TASKS];
        for (task, weight) in weights.iter_mut().enumerate() {
            *weight = self.weight(task);
        }
        weights
    }

    // The entries in use.
    pub(crate) fn tasks(&self) -> &[Task]
        ensures { map row_of result.now ≡ rows self.now }
    {
        &self.entries.tasks[..self.count]
    }
}
