// Whole runs: from a board to the judge's verdict, and what two runs under one rule have in common.
#![tactic(auto)]

ghost use Rattle.std.specs.Prelude.{◌≡◌, Ok};
ghost use Rattle.fairness.specs.Even.{even};
ghost use Rattle.board.specs.Boards.{Good, Went};
ghost use Rattle.plan.specs.Runs.{RunTold};
ghost use Rattle.schedule.specs.Endings.{Ended, EndAlike};
ghost use Rattle.schedule.specs.Evenly.{RanEvenly};

use board::Board;
use board::fault::Fault;
use judge::{Verdict, judge};
use plan::runs::{Call, Note, RunRefusal, run};
use routes::Step;
use rules::{Even, Rule};

// What a run answered, and the verdict on the board that it left.
#[derive(Clone, Copy)]
pub struct Ending {
    pub run: Result<(), RunRefusal>,
    pub verdict: Result<Verdict, Fault>,
}

#[derive(Clone, Copy)]
pub struct TwoEndings {
    pub first: Ending,
    pub second: Ending,
}

// Plays the calls on the board, and has the judge look at what they left.
pub fn run_and_judge<B: Board, R: Rule>(
    board: &mut B,
    rule: R,
    calls: &[Call],
    notes: &mut [Note],
    route: &mut [Step],
) -> Ending
    requires { Good B.build board.old }
    ensures { Ended B.build (R.order rule) board.old board.new calls.now notes.old notes.new route.old route.new result }
{
    let run = run(board, rule, calls, notes);
    let verdict = judge(board, rule, route);
    Ending { run, verdict }
}

// Two runs under one rule, on boards of any two builds. Where both are played and end with the same numbers,
// their plans are alike, whatever came before. The slices stand each by itself, since a struct of them would say their ends less plainly.
pub fn compare_runs<A: Board, B: Board, R: Rule>(
    first: &mut A,
    second: &mut B,
    rule: R,
    first_calls: &[Call],
    second_calls: &[Call],
    first_notes: &mut [Note],
    second_notes: &mut [Note],
    first_route: &mut [Step],
    second_route: &mut [Step],
) -> TwoEndings
    requires first { Good A.build first.old }
    requires second { Good B.build second.old }
    ensures first { Ended A.build (R.order rule) first.old first.new first_calls.now first_notes.old first_notes.new first_route.old first_route.new result.first }
    ensures second { Ended B.build (R.order rule) second.old second.new second_calls.now second_notes.old second_notes.new second_route.old second_route.new result.second }
    ensures alike { EndAlike (R.order rule) (A.build.meaning first.new) (B.build.meaning second.new) result }
{
    let first = run_and_judge(first, rule, first_calls, first_notes, first_route);
    let second = run_and_judge(second, rule, second_calls, second_notes, second_route);
    TwoEndings { first, second }
}

// A run under the even rule: every plan of it is distributed lexicographically fair.
pub fn run_evenly<B: Board>(
    board: &mut B,
    calls: &[Call],
    notes: &mut [Note],
) -> Result<(), RunRefusal>
    requires { Good B.build board.old }
    ensures went { Went B.build board.old board.new }
    ensures told { RunTold B.build.meaning even board.old board.new calls.now notes.old notes.new result }
    ensures fair { result ≡ Ok tt → RanEvenly (B.build.meaning board.old) calls.now notes.new (B.build.meaning board.new) }
{
    run(board, Even, calls, notes)
}
