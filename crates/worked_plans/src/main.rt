// Plans that can be worked out on paper, on boards of both builds: what the judge says of slots given by hand,
// and the plan that is made.
#![tactic(auto)]

ghost use Rattle.board.specs.Boards.{Good};

use board::fault::Fault;
use board::{Board, MOST_CORES, MOST_TASKS};
use judge::{Verdict, judge};
use pair_board::PairBoard;
use pair_board::entry::BLANK;
use plan::states::WorkingPlan;
use routes::Step;
use rules::{ByNeed, Even, Rule, Weighted};
use schedule_tests::{chain, fill, hold};
use std::io;
use table_board::TableBoard;

// An order of up to four tasks at two cores, and slots to be judged: rows of which each has a pair for each task.
#[derive(Clone, Copy)]
struct Case<'a> {
    capacities: [u16; 2],
    needs: &'a [[u16; 2]],
    judged: &'a [[[u16; 2]; 4]],
    // Whether there is but one route that the judge can show; which of several it shows is open.
    one_route: bool,
}

fn print_verdict(
    rt: &HostRuntime,
    verdict: Result<Verdict, Fault>,
    route: &[Step],
    one_route: bool,
) -> io::Result<()> {
    match verdict {
        Ok(Verdict::Passed) => println!(rt; "passed"),
        Ok(Verdict::Free { core, task }) => println!(rt; "free at core {core} for task {task}"),
        Ok(Verdict::Route { steps, loser }) => {
            if !one_route {
                return println!(rt; "not fairest");
            }
            for step in route.iter().take(steps) {
                let task = step.task;
                let core = step.core;
                print!(rt; "task {task}, core {core}, ")?;
            }
            println!(rt; "to task {loser}")
        }
        Err(fault) => {
            // The number alone: a place is 0 here.
            let number = fault.number();
            println!(rt; "refused {number}")
        }
    }
}

// The totals, and the judge's verdict on what the board holds.
fn print_board<B: Board, R: Rule>(
    rt: &HostRuntime,
    board: &B,
    rule: R,
    one_route: bool,
) -> io::Result<()>
    requires { Good B.build board.now }
{
    print!(rt; "held")?;
    for task in 0..board.tasks() {
        let total = board.total(task);
        print!(rt; " {total}")?;
    }
    print!(rt; ": ")?;
    let mut route = [Step { task: 0, core: 0 }; MOST_CORES];
    let verdict = judge(board, rule, &mut route);
    print_verdict(rt, verdict, &route, one_route)
}

// Which of several fairest plans is made is open, so its totals are told from the lowest on.
fn print_made<B: Board, R: Rule>(rt: &HostRuntime, board: &mut B, rule: R) -> io::Result<()>
    requires { Good B.build board.old }
{
    let tasks = board.tasks();
    let plan = WorkingPlan::make(board, rule);
    let mut totals = plan.totals();
    let free = plan.free_slots();
    let mut route = [Step { task: 0, core: 0 }; MOST_CORES];
    let verdict = plan.judge(&mut route);
    plan.end();
    totals.sort_unstable();
    print!(rt; "made")?;
    for total in totals.iter().skip(MOST_TASKS.saturating_sub(tasks)) {
        print!(rt; " {total}")?;
    }
    print!(rt; ", free {free}: ")?;
    print_verdict(rt, verdict, &route, false)
}

fn show_on<B: Board, R: Rule>(
    rt: &HostRuntime,
    board: &mut B,
    rule: R,
    case: Case<'_>,
) -> io::Result<()>
    requires { Good B.build board.old }
{
    fill(board, case.capacities, case.needs);
    for slots in case.judged {
        hold(board, slots);
        print_board(rt, board, rule, case.one_route)?;
    }
    print_made(rt, board, rule)
}

fn show<R: Rule>(rt: &HostRuntime, title: &str, rule: R, case: Case<'_>) -> io::Result<()> {
    let mut numbers = [0; 18];
    let mut entries = [BLANK; 8];
    let mut table = TableBoard::make(case.needs.len(), 2, &mut numbers);
    let mut pairs = PairBoard::make(case.needs.len(), 2, &mut entries);
    println!(rt; "{title}, on a table board")?;
    show_on(rt, &mut table, rule, case)?;
    println!(rt; "{title}, on a pair board")?;
    show_on(rt, &mut pairs, rule, case)
}

fn show_even(rt: &HostRuntime) -> io::Result<()> {
    show(
        rt,
        "one core for four tasks",
        Even,
        Case {
            capacities: [20, 0],
            needs: &[[8, 0], [4, 0], [10, 0], [40, 0]],
            judged: &[
                [[5, 0], [4, 0], [5, 0], [6, 0]],
                [[6, 0], [4, 0], [5, 0], [5, 0]],
                [[5, 0], [4, 0], [6, 0], [5, 0]],
                [[5, 0], [3, 0], [6, 0], [6, 0]],
            ],
            one_route: false,
        },
    )?;
    show(
        rt,
        "a slot stays free",
        Even,
        Case {
            capacities: [4, 3],
            needs: &[[3, 1], [0, 2]],
            judged: &[
                [[3, 1], [0, 2], [0, 0], [0, 0]],
                [[2, 0], [0, 1], [0, 0], [0, 0]],
                [[3, 0], [0, 1], [0, 0], [0, 0]],
                [[3, 1], [0, 1], [0, 0], [0, 0]],
            ],
            one_route: true,
        },
    )?;
    show(
        rt,
        "cores make up for each other",
        Even,
        Case {
            capacities: [3, 3],
            needs: &[[3, 0], [3, 3]],
            judged: &[
                [[3, 0], [0, 3], [0, 0], [0, 0]],
                [[2, 0], [1, 3], [0, 0], [0, 0]],
                [[1, 0], [2, 3], [0, 0], [0, 0]],
            ],
            one_route: true,
        },
    )?;
    show(
        rt,
        "either may have the second slot",
        Even,
        Case {
            capacities: [2, 2],
            needs: &[[1, 1], [2, 0]],
            judged: &[
                [[0, 1], [2, 0], [0, 0], [0, 0]],
                [[1, 1], [1, 0], [0, 0], [0, 0]],
            ],
            one_route: true,
        },
    )
}

fn show_more(rt: &HostRuntime) -> io::Result<()> {
    show(
        rt,
        "seven slots for two",
        Even,
        Case {
            capacities: [7, 0],
            needs: &[[7, 0], [7, 0]],
            judged: &[[[3, 0], [4, 0], [0, 0], [0, 0]]],
            one_route: true,
        },
    )?;
    show(
        rt,
        "eight slots for two",
        Even,
        Case {
            capacities: [8, 0],
            needs: &[[8, 0], [8, 0]],
            judged: &[[[3, 0], [5, 0], [0, 0], [0, 0]]],
            one_route: true,
        },
    )?;
    show(
        rt,
        "a route over two cores",
        Even,
        Case {
            capacities: [2, 4],
            needs: &[[2, 0], [2, 4], [0, 4]],
            judged: &[[[1, 0], [1, 1], [0, 3], [0, 0]]],
            one_route: true,
        },
    )?;
    let mut weights = [1; 64];
    weights[1] = 2;
    show(
        rt,
        "weights 1 and 2",
        Weighted::new(weights),
        Case {
            capacities: [1, 0],
            needs: &[[1, 0], [1, 0]],
            judged: &[
                [[1, 0], [0, 0], [0, 0], [0, 0]],
                [[0, 0], [1, 0], [0, 0], [0, 0]],
            ],
            one_route: true,
        },
    )?;
    show(
        rt,
        "by need",
        ByNeed,
        Case {
            capacities: [6, 0],
            needs: &[[4, 0], [8, 0]],
            judged: &[
                [[2, 0], [4, 0], [0, 0], [0, 0]],
                [[3, 0], [3, 0], [0, 0], [0, 0]],
            ],
            one_route: true,
        },
    )
}

// Each task holds the slot that the one before it needs, over 16 cores.
fn show_chain(rt: &HostRuntime) -> io::Result<()> {
    let mut numbers = [0; 560];
    let mut entries = [BLANK; 32];
    let mut table = TableBoard::make(17, 16, &mut numbers);
    let mut pairs = PairBoard::make(17, 16, &mut entries);
    chain(&mut table, 2);
    chain(&mut pairs, 2);
    println!(rt; "a chain of 16 cores, on a table board")?;
    print_board(rt, &table, Even, true)?;
    print_made(rt, &mut table, Even)?;
    println!(rt; "a chain of 16 cores, on a pair board")?;
    print_board(rt, &pairs, Even, true)?;
    print_made(rt, &mut pairs, Even)
}

// As many tasks as there can be, each with the same needs at two cores.
fn show_most(rt: &HostRuntime) -> io::Result<()> {
    let needs = [[9, 3]; 64];
    let mut numbers = [0; 258];
    let mut entries = [BLANK; 128];
    let mut table = TableBoard::make(64, 2, &mut numbers);
    let mut pairs = PairBoard::make(64, 2, &mut entries);
    fill(&mut table, [512, 128], &needs);
    fill(&mut pairs, [512, 128], &needs);
    println!(rt; "64 tasks, on a table board")?;
    print_made(rt, &mut table, Even)?;
    println!(rt; "64 tasks, on a pair board")?;
    print_made(rt, &mut pairs, Even)
}

fn main(rt: HostRuntime) -> io::Result<()> {
    show_even(&rt)?;
    show_more(&rt)?;
    show_chain(&rt)?;
    show_most(&rt)
}
