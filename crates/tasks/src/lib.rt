// The table of an order's tasks, which takes no bad or repeated name and no weight outside its bounds.
#![tactic(auto)]

ghost use Rattle.std.specs.Prelude.{◌≡◌, ◌<◌, [], OnErr, slice_set};
ghost use Rattle.std.specs.List.{list_any};
ghost use Rattle.std.specs.Str.{bytes_eq};
ghost use Rattle.tasks.specs.NameReads.{name_of};
ghost use Rattle.tasks.specs.Rows.{row, taken};
ghost use Rattle.tasks.specs.Table.{rows, row_seen, row_unless, push_why, push_answer, push_after};

use board::MOST_TASKS;
use board::fault::{Fault, Refusal};

pub mod entries;
pub mod name;
pub mod reads;
pub mod table;
pub mod task;

use entries::Entries;
use name::Name;
use table::TaskTable;
use task::Task;

pub const LONGEST_NAME: usize = 12;

pub const MOST_WEIGHT: u8 = 100;

impl Entries {
    // Fills one entry. Its part of the array is written as a whole: what the array is after a write through `get_mut`, no clause says.
    fn fill(&mut self, at: usize, task: Task)
        requires { at < 64 }
        ensures { self.new.tasks ≡ slice_set self.old.tasks at task }
    {
        self.tasks[at..=at].copy_from_slice(&[task]);
    }
}

impl TaskTable {
    // A table with no tasks.
    pub fn new() -> TaskTable
        ensures { rows result ≡ [] }
    {
        TaskTable {
            entries: Entries {
                tasks: [Task::NONE; MOST_TASKS],
            },
            count: 0,
        }
    }

    pub fn clear(&mut self)
        ensures { rows self.new ≡ [] }
    {
        self.count = 0;
    }

    // Adds the next task, or refuses it and leaves the table as it was.
    pub fn push(&mut self, task: usize, weight: u8, name: &[u8]) -> Result<(), Fault>
        ensures told { result ≡ push_answer (rows self.old) task weight name.now }
        ensures left { rows self.new ≡ push_after (rows self.old) task weight name.now }
        ensures unchanged { OnErr result (self.new ≡ self.old) }
    {
        let next = self
            .next(task, weight, name)
            .map_err(|refusal| refusal.at(0))?;
        self.entries.fill(self.count, next);
        self.count += 1;
        Ok(())
    }

    // The task as it would be added, or why it cannot be the next one.
    fn next(&self, task: usize, weight: u8, name: &[u8]) -> Result<Task, Refusal>
        ensures { row_seen result ≡ row_unless (push_why (rows self.now) task weight name.now) (row weight name.now) }
    {
        if task != self.count || self.count >= MOST_TASKS {
            return Err(Refusal::NumberOutOfTurn);
        }
        if !(1..=MOST_WEIGHT).contains(&weight) {
            return Err(Refusal::ValueOutOfBounds);
        }
        let next = Task {
            weight,
            name: Name::try_from(name)?,
        };
        if self.has(name) {
            return Err(Refusal::BadName);
        }
        Ok(next)
    }

    // Whether a task has this name.
    fn has(&self, name: &[u8]) -> bool
        ensures { result ≡ taken name.now (rows self.now) }
    {
        is_taken(self.tasks(), name)
    }
}

fn is_taken(tasks: &[Task], name: &[u8]) -> bool
    ensures { result ≡ list_any (λ task. bytes_eq (name_of task.name) name.now) tasks.now }
{
    tasks.iter().any(|task| task.name.is(name))
}
