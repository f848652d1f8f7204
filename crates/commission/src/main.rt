// Follows a script of calls on the plan of an order file: prints what each line is told and where the plan then stands.
#![tactic(auto)]

ghost use Rattle.std.specs.Prelude.{IfOk};
ghost use Rattle.board.specs.Boards.{Good};
ghost use Rattle.pair_board.specs.Pairs.{pair_build};
ghost use Rattle.changes.specs.Standing.{Standing};
ghost use Rattle.plan.specs.States.{lent_of, rule_of};

use board::fault::Fault;
use board::{Board, MOST_CORES};
use calls::Phase;
use commissioning::{Done, NotDone, Stand, Tally, follow, look};
use judge::{Verdict, judge};
use letters::rule_of;
use orderfile::{read, sizes};
use pair_board::entry::{BLANK, Entry};
use pair_board::{MOST_ENTRIES, PairBoard};
use plan::runs::{NotTaken, State};
use plan::states::{WorkingPlan, totals_on};
use routes::Step;
use rules::{OrderRule, Rule};
use std::{env, fs, io};
use tasks::table::TaskTable;

// Steps for the longest route.
type Route = [Step; MOST_CORES];

fn print_told(rt: &HostRuntime, told: Result<Done, NotDone>) -> io::Result<()> {
    match told {
        Ok(Done::Taken) => println!(rt; "taken"),
        Ok(Done::Judged) => println!(rt; "judged"),
        Err(NotDone::NotTaken(NotTaken::Refused(fault))) => println!(rt; "{fault}"),
        Err(NotDone::NotTaken(NotTaken::OutOfTurn)) => println!(rt; "out of turn"),
        Err(NotDone::NotUnderstood) => println!(rt; "not understood"),
    }
}

fn print_verdict(
    rt: &HostRuntime,
    verdict: Result<Verdict, Fault>,
    route: &Route,
) -> io::Result<()> {
    match verdict {
        Ok(Verdict::Passed) => println!(rt; "passed"),
        Ok(Verdict::Free { core, task }) => println!(rt;
            "core {core} has a free slot that task {task} needs"
        ),
        Ok(Verdict::Route { steps, loser }) => {
            print!(rt; "fairer by the route")?;
            for step in route.iter().take(steps) {
                let task = step.task;
                let core = step.core;
                print!(rt; " task {task}, core {core},")?;
            }
            println!(rt; " to task {loser}")
        }
        Err(fault) => println!(rt; "{fault}"),
    }
}

fn print_stand(rt: &HostRuntime, stand: Stand, route: &Route, tasks: usize) -> io::Result<()> {
    print!(rt; "  totals")?;
    for total in stand.totals.iter().take(tasks) {
        print!(rt; " {total}")?;
    }
    let free = stand.free;
    print!(rt; ", free {free}, ")?;
    print_verdict(rt, stand.verdict, route)
}

// Where the plan stands.
fn print_plan<B: Board, R: Rule>(
    rt: &HostRuntime,
    state: &State<'_, B, R>,
    tasks: usize,
) -> io::Result<()>
    requires { Standing B.build (R.order (rule_of state.now)) (lent_of state.now).now }
{
    let mut route = [Step { task: 0, core: 0 }; MOST_CORES];
    let stand = look(state, &mut route);
    print_stand(rt, stand, &route, tasks)
}

fn print_line<B: Board, R: Rule>(
    rt: &HostRuntime,
    line: &str,
    told: Result<Done, NotDone>,
    state: &State<'_, B, R>,
    tasks: usize,
) -> io::Result<()>
    requires { Standing B.build (R.order (rule_of state.now)) (lent_of state.now).now }
{
    print!(rt; "{line}: ")?;
    print_told(rt, told)?;
    print_plan(rt, state, tasks)
}

fn print_tally(rt: &HostRuntime, tally: Tally, phase: Phase) -> io::Result<()> {
    let taken = tally.taken;
    let refused = tally.refused;
    let late = tally.late;
    let judged = tally.judged;
    let unknown = tally.unknown;
    println!(rt;
        "taken {taken}, refused {refused}, out of turn {late}, judged {judged}, not understood {unknown}"
    )?;
    match phase {
        Phase::Working => println!(rt; "the plan is working"),
        Phase::Released => println!(rt; "the plan is released"),
    }
}

// What the board holds before a plan is made of it.
fn print_board<B: Board, R: Rule>(rt: &HostRuntime, board: &B, rule: R) -> io::Result<()>
    requires { Good B.build board.now }
{
    let mut route = [Step { task: 0, core: 0 }; MOST_CORES];
    let stand = Stand {
        totals: totals_on(board),
        free: board.free_slots(),
        verdict: judge(board, rule, &mut route),
    };
    println!(rt; "order")?;
    print_stand(rt, stand, &route, board.tasks())
}

// Makes the plan and follows the script to its end. What cannot be printed is told once the plan has ended.
fn play<B: Board, R: Rule>(rt: &HostRuntime, board: &mut B, rule: R, script: &str) -> io::Result<()>
    requires { Good B.build board.old }
{
    print_board(rt, board, rule)?;
    println!(rt; "plan")?;
    let tasks = board.tasks();
    let mut tally = Tally::default();
    let mut state = State::Working(WorkingPlan::make(board, rule));
    let mut printed = print_plan(rt, &state, tasks);
    for line in script.lines() {
        let (next, told) = follow(state, line.as_bytes());
        state = next;
        tally = tally.counted(told);
        if printed.is_ok() {
            printed = print_line(rt, line, told, &state, tasks);
        }
    }
    let phase = state.phase();
    match state {
        State::Working(plan) => plan.end(),
        State::Released(plan) => plan.end(),
    }
    printed?;
    print_tally(rt, tally, phase)
}

// The letter of the file's order, and the order on a board of its own, which borrows the entries; its tasks are put into the
// table. The making of a board belongs to its build, so no one function serves all builds.
fn read_order<'a>(
    file: &[u8],
    entries: &'a mut [Entry; MOST_ENTRIES],
    tasks: &mut TaskTable,
) -> Result<(u8, PairBoard<'a>), Fault>
    ensures { IfOk result (λ order. Good pair_build order.1) }
{
    let (_, n, m) = sizes(file)?;
    let mut board = PairBoard::make(n as usize, m as usize, entries);
    let letter = read(file, &mut board, tasks)?;
    Ok((letter, board))
}

// The first argument names the order file; the script comes from standard input.
fn main(rt: HostRuntime) -> io::Result<()> {
    let Some(path) = env::args(&rt)?.nth(1) else {
        return Err(io::ErrorKind::InvalidInput.into());
    };
    let file = fs::read(&rt, path.as_str())?;
    let script = io::read_to_string(rt.alloc(), rt.stdin())?;
    let mut entries = [BLANK; MOST_ENTRIES];
    let mut tasks = TaskTable::new();
    match read_order(file.as_slice(), &mut entries, &mut tasks) {
        Ok((letter, mut board)) => {
            let script = script.as_str();
            // Each rule is levelled and judged by its own code, which is faster than one that asks at each comparison which rule it is.
            match rule_of(letter, &tasks) {
                OrderRule::Even(rule) => play(&rt, &mut board, rule, script),
                OrderRule::Weighted(rule) => play(&rt, &mut board, rule, script),
                OrderRule::ByNeed(rule) => play(&rt, &mut board, rule, script),
            }
        }
        Err(fault) => {
            println!(rt; "{fault}")?;
            Err(io::ErrorKind::InvalidData.into())
        }
    }
}
