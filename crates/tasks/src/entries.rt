// The plain table: room for as many tasks as an order can have.
use crate::task::Task;
use board::MOST_TASKS;

#[derive(Drop)]
pub struct Entries {
    pub tasks: [Task; MOST_TASKS],
}
