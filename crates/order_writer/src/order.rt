// The order that is written: what a board and a task table hold, and its letter.
use tasks::table::TaskTable;

#[derive(Drop)]
pub struct Order<'a, B> {
    pub board: &'a B,
    pub tasks: &'a TaskTable,
    pub letter: u8,
}
