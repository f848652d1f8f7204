// Boards of three builds put to the same tests; one of them, with a row for each core, is plain and stands only here.
#![tactic(auto)]

ghost use Rattle.std.specs.Prelude.{◌≡◌, ◌*◌, min, length, drop};
ghost use Rattle.board.specs.Boards.{Good, Went};
ghost use Rattle.table_board.specs.Cells.{numbers};

pub mod row_board;
#[cfg(test)]
mod tests;

use board::Board;
use board::fault::Fault;
use pair_board::PairBoard;
use pair_board::entry::Entry;
use table_board::TableBoard;

// Tuples, since the steps of a test stand in a table, one in a line.
#[derive(Clone, Copy)]
pub enum Change {
    Need(usize, usize, u16),
    Held(usize, usize, u16),
    Capacity(usize, u16),
}

pub fn apply<B: Board>(board: &mut B, change: Change) -> Result<(), Fault>
    requires { Good B.build board.old }
    ensures { Went B.build board.old board.new }
{
    match change {
        Change::Need(task, core, amount) => board.set_need(task, core, amount),
        Change::Held(task, core, amount) => board.set_held(task, core, amount),
        Change::Capacity(core, amount) => board.set_capacity(core, amount),
    }
}

// Makes the changes one by one, until one is not told what is expected, a refusal by its number.
pub fn first_surprise<B: Board>(board: &mut B, steps: &[(Change, Result<(), u8>)]) -> Option<usize>
    requires { Good B.build board.old }
    ensures { Went B.build board.old board.new }
{
    for (at, &(change, expected)) in steps.iter().enumerate() {
        if apply(board, change).map_err(Fault::number) != expected {
            return Some(at);
        }
    }
    None
}

// Whatever is changed on a table board, its lender finds the numbers past it as they were.
pub fn in_lent_numbers(
    n: usize,
    m: usize,
    cells: &mut [u16],
    steps: &[(Change, Result<(), u8>)],
) -> Option<usize>
    ensures { drop (numbers n m) cells.new ≡ drop (numbers n m) cells.old }
{
    let mut board = TableBoard::make(n, m, cells);
    first_surprise(&mut board, steps)
}

// And the lender of a pair board's list finds the entries past what the board may use.
pub fn in_lent_entries(
    n: usize,
    m: usize,
    entries: &mut [Entry],
    steps: &[(Change, Result<(), u8>)],
) -> Option<usize>
    ensures { drop (min (length entries.old) (n * m)) entries.new ≡ drop (min (length entries.old) (n * m)) entries.old }
{
    let mut board = PairBoard::make(n, m, entries);
    first_surprise(&mut board, steps)
}
