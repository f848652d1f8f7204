// Orders put to the writer, and to both round trips: each refusal, outputs that just fit, and boards that cannot hold an order.
#![tactic(auto)]

#[cfg(test)]
mod tests;

use board::Board;
use file_tests::SAMPLE;
pub use file_tests::told;
use order_writer::write;
use orderfile::read;
use pair_board::PairBoard;
use pair_board::entry::BLANK;
use tasks::table::TaskTable;

// The sample's board and table, written under a letter into an output.
pub fn write_sample(letter: u8, out: &mut [u8]) -> Result<usize, (u8, usize)> {
    let mut entries = [BLANK; 3];
    let mut board = PairBoard::make(2, 2, &mut entries);
    let mut tasks = TaskTable::new();
    told(read(&SAMPLE, &mut board, &mut tasks))?;
    told(write(&board, &tasks, letter, out))
}
