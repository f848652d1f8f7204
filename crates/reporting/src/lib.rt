// The report of an order file: the file is read onto a pair board, the plan is made, and its text is written.
#![tactic(auto)]

ghost use Rattle.std.specs.Prelude.{◌≡◌, length, IfOk, string_bytes};
ghost use Rattle.board.specs.Boards.{Good};
ghost use Rattle.tasks.specs.Table.{rows};
ghost use Rattle.reporting.specs.declared.NoPlan.TheVariants.{Refused, OutOfMemory};
ghost use Rattle.reporting.specs.Reports.{Shown, ShownBy, PlanTold, Reported, outcome_of};

use board::Board;
use board::fault::Fault;
use letters::rule_of;
use orderfile::{read, sizes};
use pair_board::entry::BLANK;
use pair_board::{MOST_ENTRIES, PairBoard};
use plan::states::WorkingPlan;
use rules::{OrderRule, Rule};
use std::alloc::{AllocError, Global};
use summary::{refusal_text, report_text};
use tasks::table::TaskTable;

// What is printed of a file: the text of its plan, or the line of its refusal. No `Result`, since a refusal is a report too.
#[derive(Drop)]
pub enum Report {
    Plan(String),
    Refusal(String),
}

// Why no plan is shown.
#[derive(Clone, Copy, PartialEq, Eq, Debug, Drop)]
pub enum NoPlan {
    Refused(Fault),
    OutOfMemory(AllocError),
}

impl From<Fault> for NoPlan {
    ghost from_gives = { λ fault e. e ≡ Refused fault };

    fn from(fault: Fault) -> NoPlan {
        NoPlan::Refused(fault)
    }
}

impl From<AllocError> for NoPlan {
    ghost from_gives = { λ want e. e ≡ OutOfMemory want };

    fn from(want: AllocError) -> NoPlan {
        NoPlan::OutOfMemory(want)
    }
}

// Makes the plan on the board, and writes its text.
fn show_plan<B: Board, R: Rule>(
    heap: Global,
    board: &mut B,
    rule: R,
    tasks: &TaskTable,
) -> Result<String, AllocError>
    requires good { Good B.build board.old }
    requires listed { length (rows tasks.now) ≡ (B.build.meaning board.old).tasks }
    ensures { IfOk result (λ text. Shown (R.order rule) (B.build.meaning board.old) (rows tasks.now) (string_bytes text)) }
{
    let plan = WorkingPlan::make(board, rule);
    let totals = plan.totals();
    let free = plan.free_slots();
    plan.end();
    report_text(heap, tasks, &totals, free)
}

// Makes the plan on the board under the rule that the letter names, and writes its text.
pub fn show_by_letter<B: Board>(
    heap: Global,
    board: &mut B,
    letter: u8,
    tasks: &TaskTable,
) -> Result<String, AllocError>
    requires good { Good B.build board.old }
    requires listed { length (rows tasks.now) ≡ (B.build.meaning board.old).tasks }
    ensures { IfOk result (λ text. ShownBy letter (B.build.meaning board.old) (rows tasks.now) (string_bytes text)) }
{
    // Each rule is levelled by its own code, which is faster than one that asks at each comparison which rule it is.
    match rule_of(letter, tasks) {
        OrderRule::Even(rule) => show_plan(heap, board, rule, tasks),
        OrderRule::Weighted(rule) => show_plan(heap, board, rule, tasks),
        OrderRule::ByNeed(rule) => show_plan(heap, board, rule, tasks),
    }
}

// Reads the file, makes its plan, and writes the plan's text.
fn plan_text(heap: Global, file: &[u8]) -> Result<String, NoPlan>
    ensures { PlanTold (outcome_of file.now) result }
{
    let (_, n, m) = sizes(file)?;
    let mut entries = [BLANK; MOST_ENTRIES];
    let mut board = PairBoard::make(n as usize, m as usize, &mut entries);
    let mut tasks = TaskTable::new();
    let letter = read(file, &mut board, &mut tasks)?;
    let text = show_by_letter(heap, &mut board, letter, &tasks)?;
    Ok(text)
}

// The report of a file, or the line of its refusal.
pub fn report_of(heap: Global, file: &[u8]) -> Result<Report, AllocError>
    ensures { IfOk result (λ report. Reported (outcome_of file.now) report) }
{
    match plan_text(heap, file) {
        Ok(text) => Ok(Report::Plan(text)),
        Err(NoPlan::Refused(fault)) => Ok(Report::Refusal(refusal_text(heap, fault)?)),
        Err(NoPlan::OutOfMemory(want)) => Err(want),
    }
}
