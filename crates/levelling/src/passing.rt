// Passes further slots along a route that has made the plan fairer. Like the filling, it only saves searches: nothing more is
// promised than that the order stays.
ghost use Rattle.std.specs.Prelude.{◌≤◌};
ghost use Rattle.board.specs.Boards.{Good, Rearranged};

use board::{Board, MOST_SLOTS};
use fairness::Share;
use routes::Step;
use rules::Rule;
use search::{Found, MOST_TOTAL, share_of, should_gain};

fn set_slots<B: Board>(board: &mut B, task: usize, core: usize, held: u16)
    requires { Good B.build board.old }
    ensures { Rearranged B.build board.old board.new }
{
    let _ = board.set_held(task, core, held);
}

// The amount goes from the giver to the taker; it is given up first, so that the core is never over its capacity. It may not
// fit, so less is promised than of the exchange of one slot, which says what is moved.
fn shift_many<B: Board>(board: &mut B, taker: usize, core: usize, giver: usize, amount: u16)
    requires { Good B.build board.old }
    ensures { Rearranged B.build board.old board.new }
{
    let less = board.held(giver, core).saturating_sub(amount);
    let more = board.held(taker, core).saturating_add(amount);
    set_slots(board, giver, core, less);
    set_slots(board, taker, core, more);
}

// How many slots can pass along the route at once.
fn room_along<B: Board>(board: &B, route: &[Step], loser: usize) -> u16
    requires { Good B.build board.now }
    ensures { result ≤ 1000 }
{
    let mut room = MOST_SLOTS;
    let mut giver = loser;
    for step in route.iter().rev() {
        let wanted = board.need(step.task, step.core) - board.held(step.task, step.core);
        room = room.min(wanted).min(board.held(giver, step.core));
        giver = step.task;
    }
    room
}

// Whether one more slot should go from the loser to the gainer, after so many have gone.
fn one_more<R: Rule>(rule: &R, gainer: Share, loser: Share, gone: u32) -> bool {
    should_gain(
        rule,
        Share {
            total: gainer.total.saturating_add(gone).min(MOST_TOTAL),
            ..gainer
        },
        Share {
            total: loser.total.saturating_sub(gone),
            ..loser
        },
    )
}

// How many slots should go, one after the other, of as many as there is room for.
fn fair_amount<R: Rule>(rule: &R, gainer: Share, loser: Share, room: u16) -> u16
    requires { room ≤ 1000 }
{
    // Halved by hand, since no list of the amounts is kept that could be searched.
    let mut fair = 0;
    let mut unfair = room + 1;
    while fair + 1 < unfair {
        let middle = (fair + unfair) / 2;
        if one_more(rule, gainer, loser, middle as u32 - 1) {
            fair = middle;
        } else {
            unfair = middle;
        }
    }
    fair
}

pub fn pass_more<B: Board, R: Rule>(board: &mut B, rule: &R, route: &[Step], found: Found)
    requires { Good B.build board.old }
    ensures { Rearranged B.build board.old board.new }
{
    let gainer = share_of(board, found.gainer);
    let loser = share_of(board, found.loser);
    let amount = fair_amount(rule, gainer, loser, room_along(board, route, found.loser));
    let mut giver = found.loser;
    for step in route.iter().rev() {
        shift_many(board, step.task, step.core, giver, amount);
        giver = step.task;
    }
}
