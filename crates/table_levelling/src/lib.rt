// Levels a board of any build on a table of its own.
#![tactic(auto)]

ghost use Rattle.std.specs.Prelude.{◌≡◌, ℕ, ◌+◌, ◌<◌, min};
ghost use Rattle.board.specs.Meaning.{planned};
ghost use Rattle.board.specs.Boards.{Good, Went};
ghost use Rattle.table_board.specs.Table.{table_of, table_build};
ghost use Rattle.table_levelling.specs.Copies.{tasks_to, lower-settled, raise-settled, ordered, pair_changed, task_changed, all_changed, CanChange, Roomy, Holds, Mirrors};
ghost use Rattle.levelling.specs.Levelled.{Levelled};

use board::Board;
use levelling::level;
use rules::Rule;
use table_board::{MOST_NUMBERS, TableBoard};

// Gives each core of the clear board `to` the capacity that it has on `from`. Here and below `Roomy` is asked, since it is a
// fact of two boards, and of no type.
fn copy_capacities<A: Board, B: Board>(from: &A, to: &mut B)
    requires from { Good A.build from.now }
    requires to { Good B.build to.old }
    requires room { Roomy (A.build.meaning from.now) (B.build.meaning to.old) }
    requires clear { B.build.meaning to.old ≡ ordered (B.build.meaning to.old) (λ _. 0) (λ _ _. 0) }
    ensures went { Went B.build to.old to.new }
    ensures copied { B.build.meaning to.new ≡ ordered (B.build.meaning to.old) (A.build.meaning from.now).capacity (λ _ _. 0) }
{
    for core in 0..from.cores() {
        let _ = to.set_capacity(core, from.capacity(core));
    }
}

// Gives a task that needs nothing on `to` the needs that it has on `from`.
fn copy_task_needs<A: Board, B: Board>(from: &A, to: &mut B, task: usize)
    requires from { Good A.build from.now }
    requires to { Good B.build to.old }
    requires room { Roomy (A.build.meaning from.now) (B.build.meaning to.old) }
    requires task { task < (A.build.meaning from.now).tasks }
    requires clear { B.build.meaning to.old ≡ ordered (B.build.meaning to.old) (B.build.meaning to.old).capacity (tasks_to (A.build.meaning from.now).need (λ _ _. 0) task) }
    ensures went { Went B.build to.old to.new }
    ensures copied { B.build.meaning to.new ≡ ordered (B.build.meaning to.old) (B.build.meaning to.old).capacity (tasks_to (A.build.meaning from.now).need (λ _ _. 0) (task + 1)) }
{
    for core in 0..from.cores() {
        let _ = to.set_need(task, core, from.need(task, core));
    }
}

// Gives each task of `to`, where nobody needs anything yet, the needs that it has on `from`.
fn copy_needs<A: Board, B: Board>(from: &A, to: &mut B)
    requires from { Good A.build from.now }
    requires to { Good B.build to.old }
    requires room { Roomy (A.build.meaning from.now) (B.build.meaning to.old) }
    requires clear { B.build.meaning to.old ≡ ordered (B.build.meaning to.old) (B.build.meaning to.old).capacity (λ _ _. 0) }
    ensures went { Went B.build to.old to.new }
    ensures copied { B.build.meaning to.new ≡ ordered (B.build.meaning to.old) (B.build.meaning to.old).capacity (A.build.meaning from.now).need }
{
    for task in 0..from.tasks() {
        copy_task_needs(from, to, task);
    }
}

// What the slots of a pair become, of those that it has on the one board and on the other.
trait Change {
    ghost changed: { ℕ → ℕ → ℕ };

    fn changed(from: u16, to: u16) -> u16
        ensures { result ≡ changed from to };

    // A pair that was changed stays as it is.
    ghost settled: { (from to : ℕ) → changed from (changed from to) ≡ changed from to };
}

// Slots fall to those on `from` where they are more.
struct Lower;

impl Change for Lower {
    ghost changed = { min };

    ghost settled = { lower-settled };

    fn changed(from: u16, to: u16) -> u16 {
        from.min(to)
    }
}

// Slots become those on `from`.
struct Raise;

impl Change for Raise {
    ghost changed = { λ from _. from };

    ghost settled = { raise-settled };

    fn changed(from: u16, _to: u16) -> u16 {
        from
    }
}

// Changes the slots of a pair on `to`. Where they stay nothing is asked of the board, since a set call adds up the core's slots.
fn change_pair<A: Board, B: Board, C: Change>(from: &A, to: &mut B, task: usize, core: usize)
    requires from { Good A.build from.now }
    requires to { Good B.build to.old }
    ensures went { Went B.build to.old to.new }
    ensures changed { B.build.meaning to.new ≡ pair_changed C.changed (A.build.meaning from.now) (B.build.meaning to.old) task core }
{
    let held = to.held(task, core);
    let amount = C::changed(from.held(task, core), held);
    if amount != held {
        let _ = to.set_held(task, core, amount);
    }
}

// Changes what a task holds on `to`.
fn change_task<A: Board, B: Board, C: Change>(from: &A, to: &mut B, task: usize)
    requires from { Good A.build from.now }
    requires to { Good B.build to.old }
    requires task { task < (B.build.meaning to.old).tasks }
    requires reach { CanChange C.changed (A.build.meaning from.now) (B.build.meaning to.old) }
    ensures went { Went B.build to.old to.new }
    ensures changed { B.build.meaning to.new ≡ task_changed C.changed (A.build.meaning from.now) (B.build.meaning to.old) task }
{
    for core in 0..to.cores() {
        change_pair::<A, B, C>(from, to, task, core);
    }
}

// Changes what each task holds on `to`.
fn change_slots<A: Board, B: Board, C: Change>(from: &A, to: &mut B)
    requires from { Good A.build from.now }
    requires to { Good B.build to.old }
    requires reach { CanChange C.changed (A.build.meaning from.now) (B.build.meaning to.old) }
    ensures went { Went B.build to.old to.new }
    ensures changed { B.build.meaning to.new ≡ all_changed C.changed (A.build.meaning from.now) (B.build.meaning to.old) }
{
    for task in 0..to.tasks() {
        change_task::<A, B, C>(from, to, task);
    }
}

// Brings the plan of `from` to `to`: first all slots that fall, then all that rise, so that `to` stays feasible in between.
fn bring_slots<A: Board, B: Board>(from: &A, to: &mut B)
    requires from { Good A.build from.now }
    requires to { Good B.build to.old }
    requires holds { Holds (A.build.meaning from.now) (B.build.meaning to.old) }
    ensures went { Went B.build to.old to.new }
    ensures brought { B.build.meaning to.new ≡ planned (B.build.meaning to.old) (A.build.meaning from.now).held }
{
    change_slots::<A, B, Lower>(from, to);
    change_slots::<A, B, Raise>(from, to);
}

// A table with the order of the board, and no slots on it.
fn ordered_table<'a, B: Board>(board: &B, cells: &'a mut [u16; MOST_NUMBERS]) -> TableBoard<'a>
    requires { Good B.build board.now }
    ensures good { Good table_build result }
    ensures mirrors { Mirrors (B.build.meaning board.now) (table_of result) }
{
    let mut table = TableBoard::make(board.tasks(), board.cores(), cells);
    copy_capacities(board, &mut table);
    copy_needs(board, &mut table);
    table
}

// Makes the plan on the board fairest. It is levelled on a table, where each number is found at once, and its slots are brought back.
pub fn level_on_table<B: Board, R: Rule>(board: &mut B, rule: R)
    requires { Good B.build board.old }
    ensures { Levelled B.build (R.order rule) board.old board.new }
{
    let mut cells = [0; MOST_NUMBERS];
    let mut table = ordered_table(board, &mut cells);
    bring_slots(board, &mut table);
    level(&mut table, rule);
    bring_slots(&table, board);
}
