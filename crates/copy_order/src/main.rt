// Reads an order file from standard input onto a pair board and writes it again, carries it from there onto a table board,
// and prints what came of both.
#![tactic(auto)]

ghost use Rattle.board.specs.Boards.{Good};

use board::Board;
use board::fault::Fault;
use orderfile::sizes;
use pair_board::entry::BLANK;
use pair_board::{MOST_ENTRIES, PairBoard};
use records::LONGEST_FILE;
use round_trips::{read_and_write, write_and_read};
use standard_input::fill;
use std::io;
use table_board::{MOST_NUMBERS, TableBoard};
use tasks::table::TaskTable;

// One byte more than the longest order file: a file that fills it is too long.
const MOST_BYTES: usize = LONGEST_FILE + 1;

// Why a copy ends early: the order is refused, or nothing can be printed.
#[derive(Drop)]
enum Stop {
    Refused(Fault),
    Failed(io::Error),
}

impl From<Fault> for Stop {
    fn from(fault: Fault) -> Stop {
        Stop::Refused(fault)
    }
}

impl From<io::Error> for Stop {
    fn from(error: io::Error) -> Stop {
        Stop::Failed(error)
    }
}

// What a board and a table hold.
fn print_order<B: Board>(
    rt: &HostRuntime,
    board: &B,
    tasks: &TaskTable,
    letter: u8,
) -> io::Result<()>
    requires { Good B.build board.now }
{
    let letter = letter as char;
    let named = tasks.len();
    let cores = board.cores();
    let pairs = board.pair_count();
    let free = board.free_slots();
    println!(rt; "letter {letter}, {named} tasks, {cores} cores, {pairs} pairs, {free} slots free")
}

fn print_copy(rt: &HostRuntime, file: &[u8], again: &[u8], length: usize) -> io::Result<()> {
    if again.starts_with(file) && length == file.len() {
        println!(rt; "read and written again: the same {length} bytes")
    } else {
        println!(rt; "read and written again: other bytes")
    }
}

// Copies the order from the file to the pair board, back into bytes, and on to the table board.
fn copy(rt: &HostRuntime, file: &[u8]) -> Result<(), Stop> {
    let (letter, n, m) = sizes(file)?;
    let n = n as usize;
    let m = m as usize;
    let mut entries = [BLANK; MOST_ENTRIES];
    let mut pairs = PairBoard::make(n, m, &mut entries);
    let mut tasks = TaskTable::new();
    let mut again = [0; MOST_BYTES];
    let length = read_and_write(file, &mut pairs, &mut tasks, &mut again)?;
    print_copy(rt, file, &again, length)?;
    let mut numbers = [0; MOST_NUMBERS];
    let mut table = TableBoard::make(n, m, &mut numbers);
    let mut names = TaskTable::new();
    let letter = write_and_read(&pairs, &tasks, letter, &mut again, &mut table, &mut names)?;
    print_order(rt, &table, &names, letter)?;
    Ok(())
}

// A refusal is what came of the copy, and is printed.
fn main(rt: HostRuntime) -> io::Result<()> {
    let mut buffer = [0; MOST_BYTES];
    let have = fill(&rt, &mut buffer)?;
    match copy(&rt, &buffer[..have]) {
        Ok(()) => Ok(()),
        Err(Stop::Refused(fault)) => println!(rt; "{fault}"),
        Err(Stop::Failed(error)) => Err(error),
    }
}
