// Orders that are read and written again, and written and read again.
#![tactic(auto)]

ghost use Rattle.board.specs.Boards.{Good, Went};
ghost use Rattle.tasks.specs.Table.{rows};
ghost use Rattle.std.specs.Prelude.{length};
ghost use Rattle.order_writer.specs.Writing.{write_why};
ghost use Rattle.round_trips.specs.Trips.{Rewritten, Carried};

use board::Board;
use board::fault::Fault;
use order_writer::write;
use orderfile::read;
use tasks::table::TaskTable;

// Reads a file and writes again what it gave: an accepted file comes out byte for byte as it was.
pub fn read_and_write<B: Board>(
    file: &[u8],
    board: &mut B,
    tasks: &mut TaskTable,
    out: &mut [u8],
) -> Result<usize, Fault>
    requires { Good B.build board.old }
    ensures { Rewritten B.build board.old board.new file.now (rows tasks.new) out.old out.new result }
{
    let letter = read(file, board, tasks)?;
    write(board, tasks, letter, out)
}

// Writes what a board and a task table hold, and reads it onto a second board, of any build, and into a second table.
pub fn write_and_read<A: Board, B: Board>(
    first: &A,
    tasks: &TaskTable,
    letter: u8,
    out: &mut [u8],
    second: &mut B,
    second_tasks: &mut TaskTable,
) -> Result<u8, Fault>
    requires first { Good A.build first.now }
    requires second { Good B.build second.old }
    ensures went { Went B.build second.old second.new }
    ensures carried { Carried B.build (write_why letter (rows tasks.now) (A.build.meaning first.now) (length out.old)) (A.build.meaning first.now) letter (rows tasks.now) second.old second.new second_tasks.old second_tasks.new out.old out.new result }
{
    let length = write(first, tasks, letter, out)?;
    read(&out[0..length], second, second_tasks)
}
