// Reads an order file: its sizes alone, or the whole of it into a board and a task table.
#![tactic(auto)]

ghost use Rattle.std.specs.Prelude.{◌≡◌};
ghost use Rattle.board.specs.Boards.{Good};
ghost use Rattle.tasks.specs.Table.{rows};
ghost use Rattle.records.specs.Cuts.{plain};
ghost use Rattle.sections.specs.Lines.{said_by};
ghost use Rattle.orderfile.specs.Sizes.{sizes_of, SizesRefusedAsRead};
ghost use Rattle.orders.specs.Steps.{reading};
ghost use Rattle.orderfile.specs.Steps.{Applied, Took};
ghost use Rattle.orders.specs.Reads.{order_of, run_from, read_of};
ghost use Rattle.orders.specs.Laws.{Lawful};
ghost use Rattle.orderfile.specs.Reads.{Filled, Read, gave};

use board::Board;
use board::fault::{Fault, Refusal};
use records::kind::Kind;
use records::{Record, Records};
use sections::head_fields;
use sections::state::{Line, Reader};
use tasks::table::TaskTable;

// The letter, the number of tasks and the number of cores that the file's first record tells.
pub fn sizes(file: &[u8]) -> Result<(u8, u8, u8), Fault>
    ensures { result ≡ sizes_of file.now }
{
    let mut records = Records::open(file)?;
    let first = records.next()?;
    if first.kind != Kind::Head {
        return Err(Refusal::KindOutOfTurn.at(first.place));
    }
    let head = head_fields(first.body).map_err(|refusal| refusal.at(first.place))?;
    Ok((head.letter, head.tasks, head.cores))
}

// Where the sizes are refused, reading is refused with the same fault.
pub fn sizes_are_refused_as_read()
    ensures { SizesRefusedAsRead }
{}

// Fills the board and the task table with what the file says, and answers its letter; refused, both are clear.
pub fn read<B: Board>(file: &[u8], board: &mut B, tasks: &mut TaskTable) -> Result<u8, Fault>
    requires { Good B.build board.old }
    ensures read { Read B.build board.old board.new (rows tasks.new) (read_of (B.build.meaning board.old) file.now) result }
    // It is accepted just where it is the encoding of an order that the board can hold, and then that order stands there.
    ensures lawful { Lawful (B.build.meaning board.old) file.now (gave result (B.build.meaning board.new) (rows tasks.new)) }
{
    board.clear();
    tasks.clear();
    let letter = read_records(file, board, tasks);
    if letter.is_err() {
        board.clear();
        tasks.clear();
    }
    letter
}

// Reads record after record, up to the end record and the file's last byte.
fn read_records<B: Board>(file: &[u8], board: &mut B, tasks: &mut TaskTable) -> Result<u8, Fault>
    requires { Good B.build board.old }
    ensures { Filled B.build board.old board.new (rows tasks.new) (order_of (run_from (B.build.meaning board.old) (rows tasks.old) file.now)) result }
{
    let mut records = Records::open(file)?;
    let mut reader = Reader::new(board.tasks(), board.cores());
    // Counted by hand, and beside the reader, which goes by sections: the loop ends by the end record, not by the number of records.
    let mut seen = 0;
    while !reader.ended() {
        let found = records.next()?;
        take(&mut reader, found, seen, board, tasks)?;
        seen += 1;
    }
    records.finish()?;
    Ok(reader.letter)
}

// Puts what one record says on the board or into the table.
fn apply<B: Board>(line: Line<'_>, board: &mut B, tasks: &mut TaskTable) -> Result<(), Fault>
    requires { Good B.build board.old }
    ensures { Applied B.build board.old board.new (rows tasks.old) (rows tasks.new) (said_by line.entry) result }
{
    match line {
        Line::Head | Line::End => Ok(()),
        Line::Core(core) => board.set_capacity(core.core as usize, core.capacity),
        Line::Task(task) => tasks.push(task.task as usize, task.weight, task.name),
        Line::Need(pair) => board.set_need(pair.task as usize, pair.core as usize, pair.amount),
        Line::Slots(pair) => board.set_held(pair.task as usize, pair.core as usize, pair.amount),
    }
}

// Takes in one record, after `seen` others; a fault's place is the record's, whoever refuses it.
fn take<B: Board>(
    reader: &mut Reader,
    found: Record<'_>,
    seen: usize,
    board: &mut B,
    tasks: &mut TaskTable,
) -> Result<(), Fault>
    requires { Good B.build board.old }
    ensures { Took B.build board.old board.new (reading reader.old seen (B.build.meaning board.old) (rows tasks.old)) (plain found.entry) reader.new (rows tasks.new) result }
{
    let place = found.place;
    let line = reader
        .line(found, seen)
        .map_err(|refusal| refusal.at(place))?;
    apply(line, board, tasks).map_err(|fault| fault.refusal.at(place))
}
