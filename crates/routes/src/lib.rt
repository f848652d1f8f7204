// Routes from a gaining task to a losing one, and the exchange of one slot along them.
#![tactic(auto)]

ghost use Rattle.board.specs.Boards.{Good, Went};
ghost use Rattle.routes.specs.Routes.{RouteTo, PassedAlong, MayShift, Shifted};

use board::Board;

// A task, and the core of which it takes a slot from the next task of a route. C callers lend lists of these.
#[repr(C)]
#[derive(Clone, Copy, PartialEq, Eq, Debug)]
pub struct Step {
    pub task: usize,
    pub core: usize,
}

// A slot of the core goes from the giver to the taker: it is given up first, so that the core is never over its capacity.
fn shift<B: Board>(board: &mut B, taker: usize, core: usize, giver: usize)
    requires good { Good B.build board.old }
    requires may { MayShift (B.build.meaning board.old) taker core giver }
    ensures went { Went B.build board.old board.new }
    ensures shifted { Shifted (B.build.meaning board.old) (B.build.meaning board.new) taker core giver }
{
    let less = board.held(giver, core) - 1;
    let more = board.held(taker, core) + 1;
    let _ = board.set_held(giver, core, less);
    let _ = board.set_held(taker, core, more);
}

// One slot goes from the loser along the route to its first task.
pub fn exchange<B: Board>(board: &mut B, route: &[Step], loser: usize)
    requires good { Good B.build board.old }
    requires route { RouteTo (B.build.meaning board.old) route.now loser }
    ensures went { Went B.build board.old board.new }
    ensures passed { PassedAlong (B.build.meaning board.old) (B.build.meaning board.new) route.now loser }
{
    let mut giver = loser;
    for step in route.iter().rev() {
        shift(board, step.task, step.core, giver);
        giver = step.task;
    }
}
