// Boards filled by hand, put to levelling and to the judge.
#![tactic(auto)]

ghost use Rattle.board.specs.Boards.{Good};

#[cfg(test)]
mod tests;

use board::Board;
use board::fault::Fault;
use plan::states::WorkingPlan;
use rules::Rule;
use tasks::table::TaskTable;

// Gives the board its capacities, and the first tasks their needs at its first two cores.
pub fn fill<B: Board>(board: &mut B, capacities: [u16; 2], needs: &[[u16; 2]])
    requires { Good B.build board.old }
    ensures { Good B.build board.new }
{
    let _ = board.set_capacity(0, capacities[0]);
    let _ = board.set_capacity(1, capacities[1]);
    for (task, pair) in needs.iter().enumerate() {
        let _ = board.set_need(task, 0, pair[0]);
        let _ = board.set_need(task, 1, pair[1]);
    }
}

// Each task holds the slot of one core and needs that of the next; the first holds none, and the last holds `last` at the
// last core. Where that is 2, only the route over all cores makes the plan fairer.
pub fn chain<B: Board>(board: &mut B, last: u16)
    requires { Good B.build board.old }
    ensures { Good B.build board.new }
{
    for core in 0..16 {
        let _ = board.set_capacity(core, 1);
        let _ = board.set_need(core, core, 1);
        let _ = board.set_need(core + 1, core, 1);
        let _ = board.set_held(core + 1, core, 1);
    }
    let _ = board.set_capacity(15, last);
    let _ = board.set_need(16, 15, last);
    let _ = board.set_held(16, 15, last);
}

// The totals of the first four tasks on the plan that is made, and the free slots.
pub fn planned<B: Board, R: Rule>(board: &mut B, rule: R) -> ([u32; 4], u32)
    requires { Good B.build board.old }
{
    let plan = WorkingPlan::make(board, rule);
    let totals = [plan.total(0), plan.total(1), plan.total(2), plan.total(3)];
    let free = plan.free_slots();
    plan.end();
    (totals, free)
}

// Gives the first tasks the slots at the first two cores, in place of all that they held there.
pub fn hold<B: Board>(board: &mut B, slots: &[[u16; 2]])
    requires { Good B.build board.old }
    ensures { Good B.build board.new }
{
    for task in 0..slots.len() {
        let _ = board.set_held(task, 0, 0);
        let _ = board.set_held(task, 1, 0);
    }
    for (task, pair) in slots.iter().enumerate() {
        let _ = board.set_held(task, 0, pair[0]);
        let _ = board.set_held(task, 1, pair[1]);
    }
}

// Writes the plan that is made, once it is released.
pub fn written<B: Board, R: Rule>(
    board: &mut B,
    rule: R,
    tasks: &TaskTable,
    letter: u8,
    out: &mut [u8],
) -> Result<usize, Fault>
    requires { Good B.build board.old }
{
    let plan = WorkingPlan::make(board, rule).release();
    plan.write(tasks, letter, out)
}
