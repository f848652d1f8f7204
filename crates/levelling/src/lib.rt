// Levelling: free slots are given out, then single slots pass along routes, until the plan is fairest.
#![tactic(auto)]

ghost use Rattle.std.specs.Prelude.{IfSome};
ghost use Rattle.board.specs.Boards.{Good, Went};
ghost use Rattle.levelling.specs.Levelled.{FirstFree, Improved, FewSteps, Levelled};

mod filling;
mod passing;

use board::{Board, MOST_CORES};
use filling::give_out;
use passing::pass_more;
use routes::{Step, exchange};
use rules::Rule;
use search::{Found, find_route};

// How often slots are passed on in bulk; a few hundred rounds settle the largest boards.
const MOST_ROUNDS: usize = 10000;

// A core with a free slot, and a task that holds less than its need there.
#[derive(Clone, Copy, PartialEq, Eq, Debug)]
pub struct FreePair {
    pub core: usize,
    pub task: usize,
}

// The first free pair: the lowest core, and at that core the lowest task.
pub fn free_pair<B: Board>(board: &B) -> Option<FreePair>
    requires { Good B.build board.now }
    ensures { FirstFree (B.build.meaning board.now) result }
{
    let mut pair = None;
    'cores: for core in 0..board.cores() {
        if board.free(core) == 0 {
            continue;
        }
        for task in 0..board.tasks() {
            if board.held(task, core) < board.need(task, core) {
                pair = Some(FreePair { core, task });
                break 'cores;
            }
        }
    }
    pair
}

// How one slot made the plan fairer.
#[derive(Clone, Copy)]
enum Improvement {
    // It passed along a route.
    Passed(Found),
    // The task took a free one.
    Taken(usize),
}

impl Improvement {
    // Who gained the slot.
    fn gainer(self) -> usize {
        match self {
            Improvement::Passed(found) => found.gainer,
            Improvement::Taken(task) => task,
        }
    }
}

// One slot makes the plan fairer: it passes along a route, which fills the first entries of the list, or a free one is taken.
fn improve<B: Board, R: Rule>(
    board: &mut B,
    rule: &R,
    start: usize,
    steps: &mut [Step; MOST_CORES],
) -> Option<Improvement>
    requires { Good B.build board.old }
    ensures went { Went B.build board.old board.new }
    ensures improved { Improved (R.order rule.now) (B.build.meaning board.old) (B.build.meaning board.new) result }
    ensures few { IfSome result FewSteps }
{
    if let Some(found) = find_route(board, rule, start, steps) {
        exchange(board, &steps[..found.steps], found.loser);
        return Some(Improvement::Passed(found));
    }
    let FreePair { core, task } = free_pair(board)?;
    let held = board.held(task, core);
    let _ = board.set_held(task, core, held + 1);
    Some(Improvement::Taken(task))
}

// Makes the plan fairest. Each search goes on from the task that gained last, which often gains again. The first rounds pass on
// as many slots as they can at once; should they not be enough, single slots bring the plan to its end.
pub fn level<B: Board, R: Rule>(board: &mut B, rule: R)
    requires { Good B.build board.old }
    ensures { Levelled B.build (R.order rule) board.old board.new }
{
    give_out(board, &rule);
    let mut steps = [Step { task: 0, core: 0 }; MOST_CORES];
    let mut start = 0;
    for _ in 0..MOST_ROUNDS {
        let Some(improvement) = improve(board, &rule, start, &mut steps) else {
            return;
        };
        if let Improvement::Passed(found) = improvement {
            pass_more(board, &rule, &steps[..found.steps], found);
        }
        start = improvement.gainer();
    }
    while let Some(improvement) = improve(board, &rule, start, &mut steps) {
        start = improvement.gainer();
    }
}
