// The judge: whether a board's plan is fairest, and if not, a slot that would make it fairer.
#![tactic(auto)]

ghost use Rattle.board.specs.Boards.{Good};
ghost use Rattle.judge.specs.Verdicts.{Judged};

use board::fault::{Fault, Refusal};
use board::{Board, MOST_CORES};
use levelling::{FreePair, free_pair};
use routes::Step;
use rules::Rule;
use search::{Found, find_route};

// What the judge says of a plan.
#[derive(Clone, Copy, PartialEq, Eq, Debug)]
pub enum Verdict {
    // It is fairest.
    Passed,
    // The core has a free slot, and the task holds less than its need there.
    Free { core: usize, task: usize },
    // A slot should go from the loser along a route of so many steps.
    Route { steps: usize, loser: usize },
}

// Judges the plan that stands on the board, however it came there. A route is written to the first entries of the list.
pub fn judge<B: Board, R: Rule>(board: &B, rule: R, route: &mut [Step]) -> Result<Verdict, Fault>
    requires { Good B.build board.now }
    ensures { Judged (R.order rule) (B.build.meaning board.now) route.old route.new result }
{
    if route.len() < MOST_CORES {
        return Err(Refusal::RouteListTooShort.at(0));
    }
    if let Some(FreePair { core, task }) = free_pair(board) {
        return Ok(Verdict::Free { core, task });
    }
    let Some(Found { steps, loser, .. }) = find_route(board, &rule, 0, route) else {
        return Ok(Verdict::Passed);
    };
    Ok(Verdict::Route { steps, loser })
}
