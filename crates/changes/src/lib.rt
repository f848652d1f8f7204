// A change of a need or a capacity under a plan: slots that no longer fit are taken away, the number changes, and the plan is levelled anew.
#![tactic(auto)]

ghost use Rattle.std.specs.Prelude.{◌≡◌, ℕ, ◌+◌, ◌<◌, ◌≤◌, min, Ok};
ghost use Rattle.board.specs.Meaning.{Meaning, SameOrder, with_held, with_need, with_capacity, given_at};
ghost use Rattle.board.specs.Boards.{Good, Went, Rearranged};
ghost use Rattle.board.specs.Outcomes.{answered};
ghost use Rattle.levelling.specs.Levelled.{FairestOn};
ghost use Rattle.changes.specs.Changes.{plan_need, plan_capacity};
ghost use Rattle.changes.specs.Standing.{Standing, Replanned};

use board::fault::{Fault, Refusal};
use board::{Board, MOST_SLOTS};
use rules::Rule;
use table_levelling::level_on_table;

// Sets a need of the board's plan, or refuses; a need that is what it was moves no slot.
pub fn set_need<B: Board, R: Rule>(
    board: &mut B,
    rule: R,
    task: usize,
    core: usize,
    need: u16,
) -> Result<(), Fault>
    requires { Standing B.build (R.order rule) board.old }
    ensures { Replanned B.build (R.order rule) board.old board.new (plan_need (B.build.meaning board.old) task core need) result }
{
    test_need(board, task, core, need)?;
    if board.need(task, core) != need {
        change_need(board, rule, task, core, need);
    }
    Ok(())
}

// Sets a capacity, likewise.
pub fn set_capacity<B: Board, R: Rule>(
    board: &mut B,
    rule: R,
    core: usize,
    capacity: u16,
) -> Result<(), Fault>
    requires { Standing B.build (R.order rule) board.old }
    ensures { Replanned B.build (R.order rule) board.old board.new (plan_capacity (B.build.meaning board.old) core capacity) result }
{
    test_capacity(board, core, capacity)?;
    if board.capacity(core) != capacity {
        change_capacity(board, rule, core, capacity);
    }
    Ok(())
}

// Whether a plan takes the need. Slots above it are no reason to refuse, so the board's own test, which asks for them too, would
// cost one search more of a board that searches for its pairs.
fn test_need<B: Board>(board: &B, task: usize, core: usize, need: u16) -> Result<(), Fault>
    requires { Good B.build board.now }
    ensures { result ≡ answered (plan_need (B.build.meaning board.now) task core need) }
{
    if task >= board.tasks() || core >= board.cores() {
        return Err(Refusal::NoSuchTaskOrCore.at(0));
    }
    if need > MOST_SLOTS {
        return Err(Refusal::AmountTooLarge.at(0));
    }
    if need > 0 && !board.has_place(task, core) {
        return Err(Refusal::NoPairLeft.at(0));
    }
    Ok(())
}

// Whether a plan takes the capacity. Slots above it are no reason to refuse, and the capacity that the core has is taken without
// adding them up.
fn test_capacity<B: Board>(board: &B, core: usize, capacity: u16) -> Result<(), Fault>
    requires { Good B.build board.now }
    ensures { result ≡ answered (plan_capacity (B.build.meaning board.now) core capacity) }
{
    if core < board.cores() && capacity == board.capacity(core) {
        return Ok(());
    }
    match board.test_capacity(core, capacity) {
        Err(fault) if fault.refusal == Refusal::CoreOverCapacity => Ok(()),
        told => told,
    }
}

// Takes away the slots of the task at the core that are more than the need to come.
fn fit_need<B: Board>(board: &mut B, task: usize, core: usize, need: u16)
    requires good { Good B.build board.old }
    requires task { task < (B.build.meaning board.old).tasks }
    requires core { core < (B.build.meaning board.old).cores }
    ensures went { Went B.build board.old board.new }
    ensures fits { B.build.meaning board.new ≡ with_held (B.build.meaning board.old) task core (min ((B.build.meaning board.old).held task core) need) }
{
    let held = board.held(task, core);
    let _ = board.set_held(task, core, held.min(need));
}

// Takes away slots of the core, from the first tasks on, until no more are given than the capacity to come.
fn fit_capacity<B: Board>(board: &mut B, core: usize, capacity: u16)
    requires good { Good B.build board.old }
    requires core { core < (B.build.meaning board.old).cores }
    ensures rearranged { Rearranged B.build board.old board.new }
    ensures fits { given_at (B.build.meaning board.new) core ≤ capacity }
{
    let mut over = board.given(core).saturating_sub(capacity as u32);
    for task in 0..board.tasks() {
        let held = board.held(task, core);
        let left = (held as u32).saturating_sub(over) as u16;
        let _ = board.set_held(task, core, left);
        over -= (held - left) as u32;
    }
}

// Changes a need that a plan takes, and levels.
fn change_need<B: Board, R: Rule>(board: &mut B, rule: R, task: usize, core: usize, need: u16)
    requires good { Good B.build board.old }
    requires taken { Ok tt ≡ answered (plan_need (B.build.meaning board.old) task core need) }
    ensures went { Went B.build board.old board.new }
    ensures order { SameOrder (with_need (B.build.meaning board.old) task core need) (B.build.meaning board.new) }
    ensures fairest { FairestOn (R.order rule) (B.build.meaning board.new) }
{
    fit_need(board, task, core, need);
    let _ = board.set_need(task, core, need);
    level_on_table(board, rule);
}

// Changes a capacity that a plan takes, and levels.
fn change_capacity<B: Board, R: Rule>(board: &mut B, rule: R, core: usize, capacity: u16)
    requires good { Good B.build board.old }
    requires taken { Ok tt ≡ answered (plan_capacity (B.build.meaning board.old) core capacity) }
    ensures went { Went B.build board.old board.new }
    ensures order { SameOrder (with_capacity (B.build.meaning board.old) core capacity) (B.build.meaning board.new) }
    ensures fairest { FairestOn (R.order rule) (B.build.meaning board.new) }
{
    fit_capacity(board, core, capacity);
    let _ = board.set_capacity(core, capacity);
    level_on_table(board, rule);
}
