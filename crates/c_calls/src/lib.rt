// The calls for C. Each takes the bytes of an order file; boards lie on the stack, and whatever a caller passes is tested.
#![tactic(auto)]

ghost use Rattle.std.specs.Prelude.{◌≡◌, length};
ghost use Rattle.order_writer.specs.Writing.{told, left};
ghost use Rattle.reporting.specs.Reports.{outcome_of};
ghost use Rattle.board.specs.Boards.{Good};
ghost use Rattle.tasks.specs.Table.{rows};
ghost use Rattle.c_calls.specs.Answers.{check_of, accepted};
ghost use Rattle.c_calls.specs.Orders.{OrderRead};
ghost use Rattle.c_calls.specs.Results.{OrderJudged, FileJudged, PlanWritten, OrderPlanned, FilePlanned, too_short, OrderShown, FileShown};

pub mod answers;

use answers::{Answer, Judgement};
use board::Board;
use board::fault::{Fault, Refusal};
use judge::{Verdict, judge};
use letters::rule_of;
use orderfile::{read, sizes};
use plan::states::WorkingPlan;
use reporting::{NoPlan, show_by_letter};
use routes::Step;
use rules::{OrderRule, Rule};
use std::alloc::Global;
use table_board::{MOST_NUMBERS, TableBoard};
use tasks::table::TaskTable;

// The letter of the file's order, and the order on a board of its own; its tasks are put into the table. The making of a board
// belongs to its build, and the board borrows the cells of the call: so no one function serves all builds and calls.
fn read_order<'a>(
    file: &[u8],
    cells: &'a mut [u16; MOST_NUMBERS],
    tasks: &mut TaskTable,
) -> Result<(u8, TableBoard<'a>), Fault>
    ensures { OrderRead (outcome_of file.now) (rows tasks.new) result }
{
    let (_, n, m) = sizes(file)?;
    let mut board = TableBoard::make(n as usize, m as usize, cells);
    let letter = read(file, &mut board, tasks)?;
    Ok((letter, board))
}

fn accept(file: &[u8]) -> Result<usize, Fault>
    ensures { result ≡ accepted (outcome_of file.now) }
{
    let mut cells = [0; MOST_NUMBERS];
    let mut tasks = TaskTable::new();
    read_order(file, &mut cells, &mut tasks)?;
    Ok(0)
}

// Whether the file is accepted, or why it is not.
#[unsafe(no_mangle)]
pub extern "C" fn bikstaru_check(file: &[u8]) -> Answer
    ensures { result ≡ check_of (outcome_of file.now) }
{
    Answer::from(accept(file))
}

// Judges the slots of the file under the rule of its letter.
fn judge_order(file: &[u8], route: &mut [Step]) -> Result<Verdict, Fault>
    ensures { OrderJudged (outcome_of file.now) route.old route.new result }
{
    let mut cells = [0; MOST_NUMBERS];
    let mut tasks = TaskTable::new();
    let (letter, board) = read_order(file, &mut cells, &mut tasks)?;
    judge(&board, rule_of(letter, &tasks), route)
}

// The judge's verdict on the slots of the file; a route is written to the first entries of the list.
#[unsafe(no_mangle)]
pub extern "C" fn bikstaru_judge(file: &[u8], route: &mut [Step]) -> Judgement
    ensures { FileJudged (outcome_of file.now) route.old route.new result }
{
    Judgement::from(judge_order(file, route))
}

// Makes the plan on the board, and writes the order with it.
fn write_plan<B: Board, R: Rule>(
    board: &mut B,
    rule: R,
    letter: u8,
    tasks: &TaskTable,
    out: &mut [u8],
) -> Result<usize, Fault>
    requires { Good B.build board.old }
    ensures { PlanWritten (R.order rule) letter (B.build.meaning board.old) (rows tasks.now) out.old out.new result }
{
    let plan = WorkingPlan::make(board, rule);
    plan.release().write(tasks, letter, out)
}

// Makes the fairest plan of the file's order under the rule of its letter, and writes the order with it.
fn plan_order(file: &[u8], out: &mut [u8]) -> Result<usize, Fault>
    ensures { OrderPlanned (outcome_of file.now) out.old out.new result }
{
    let mut cells = [0; MOST_NUMBERS];
    let mut tasks = TaskTable::new();
    let (letter, mut board) = read_order(file, &mut cells, &mut tasks)?;
    // Each rule is levelled by its own code, which is faster than one that asks at each comparison which rule it is.
    match rule_of(letter, &tasks) {
        OrderRule::Even(rule) => write_plan(&mut board, rule, letter, &tasks, out),
        OrderRule::Weighted(rule) => write_plan(&mut board, rule, letter, &tasks, out),
        OrderRule::ByNeed(rule) => write_plan(&mut board, rule, letter, &tasks, out),
    }
}

// Makes the fairest plan of the file's order, and writes the order with it as an order file.
#[unsafe(no_mangle)]
pub extern "C" fn bikstaru_plan(file: &[u8], out: &mut [u8]) -> Answer
    ensures { FilePlanned (outcome_of file.now) out.old out.new result }
{
    Answer::from(plan_order(file, out))
}

// Puts the text at the output's front, and answers its length.
fn put_text(text: &[u8], out: &mut [u8]) -> Result<usize, Fault>
    ensures told { result ≡ told (too_short (length out.old) (length text.now)) (length text.now) }
    ensures left { out.new ≡ left (too_short (length out.old) (length text.now)) text.now out.old }
{
    let long = text.len();
    if out.len() < long {
        return Err(Refusal::OutputTooShort.at(0));
    }
    out[0..long].copy_from_slice(text);
    Ok(long)
}

// The report of the file's fairest plan, put into the output.
fn show_order(heap: Global, file: &[u8], out: &mut [u8]) -> Result<usize, NoPlan>
    ensures { OrderShown (outcome_of file.now) out.old out.new result }
{
    let mut cells = [0; MOST_NUMBERS];
    let mut tasks = TaskTable::new();
    let (letter, mut board) = read_order(file, &mut cells, &mut tasks)?;
    let text = show_by_letter(heap, &mut board, letter, &tasks)?;
    let long = put_text(text.as_bytes(), out)?;
    Ok(long)
}

// The report of the file's fairest plan. Its text is made in the caller's heap, and then put into the output.
#[unsafe(no_mangle)]
pub extern "C" fn bikstaru_report(heap: Global, file: &[u8], out: &mut [u8]) -> Answer
    ensures { FileShown (outcome_of file.now) out.old out.new result }
{
    Answer::from(show_order(heap, file, out))
}
