// A plan is working or released: a working one takes changes, a released one stays as it is until it is reopened.
ghost use Rattle.std.specs.Prelude.{◌≡◌};
ghost use Rattle.board.specs.Meaning.{total_of, free_slots};
ghost use Rattle.board.specs.Boards.{Good};
ghost use Rattle.judge.specs.Verdicts.{Judged};
ghost use Rattle.tasks.specs.Table.{rows};
ghost use Rattle.order_writer.specs.Writing.{Written};
ghost use Rattle.changes.specs.Changes.{plan_need, plan_capacity};
ghost use Rattle.changes.specs.Standing.{Standing, Replanned};
ghost use Rattle.plan.specs.Plans.{Planned, Totals};

use board::fault::Fault;
use board::{Board, MOST_TASKS};
use changes::{set_capacity, set_need};
use judge::{Verdict, judge};
use order_writer::write;
use routes::Step;
use rules::Rule;
use std::marker::PhantomData;
use table_levelling::level_on_table;
use tasks::table::TaskTable;

// The state of a plan that takes changes.
pub struct Working;

// The state of a plan that stays as it is until it is reopened.
pub struct Released;

// A plan on a lent board, in the state `S`. That it stands is asked by each call: a fact kept in the type would hide how the
// loan ends, of which `end` and `write` promise that the board stays as it is.
pub struct Plan<'a, B, R, S> {
    board: &'a mut B,
    rule: R,
    state: PhantomData<S>,
}

pub type WorkingPlan<'a, B, R> = Plan<'a, B, R, Working>;

pub type ReleasedPlan<'a, B, R> = Plan<'a, B, R, Released>;

// What a plan answers in either state.
impl<'a, B: Board, R: Rule, S> Plan<'a, B, R, S> {
    // What a task holds over all cores.
    pub fn total(&self, task: usize) -> u32
        requires { Standing B.build (R.order self.now.rule) self.now.board.now }
        ensures { result ≡ total_of (B.build.meaning self.now.board.now) task }
    {
        self.board.total(task)
    }

    pub fn held(&self, task: usize, core: usize) -> u16
        requires { Standing B.build (R.order self.now.rule) self.now.board.now }
        ensures { result ≡ (B.build.meaning self.now.board.now).held task core }
    {
        self.board.held(task, core)
    }

    // What all cores could still give.
    pub fn free_slots(&self) -> u32
        requires { Standing B.build (R.order self.now.rule) self.now.board.now }
        ensures { result ≡ free_slots (B.build.meaning self.now.board.now) }
    {
        self.board.free_slots()
    }

    // The totals of all tasks, by their numbers; 0 past the last task.
    pub fn totals(&self) -> [u32; MOST_TASKS]
        requires { Standing B.build (R.order self.now.rule) self.now.board.now }
        ensures { Totals (B.build.meaning self.now.board.now) result }
    {
        totals_on(self.board)
    }

    // The judge's verdict on the plan. The rule is copied out, and the board lent.
    pub fn judge(&self, route: &mut [Step]) -> Result<Verdict, Fault>
        requires { Standing B.build (R.order self.now.rule) self.now.board.now }
        ensures { Judged (R.order self.now.rule) (B.build.meaning self.now.board.now) route.old route.new result }
    {
        let rule = self.rule;
        judge(self.board, rule, route)
    }

    // Ends the plan; its board stays as it is.
    pub fn end(self)
        ensures { self.exit.0.now ≡ self.entry.board.now }
    {
        let Plan {
            board: _,
            rule: _,
            state: _,
        } = self;
        // The loan ends here: the lender has the board again.
    }

    // Ends the plan, and gives the board back to the call that lent it.
    pub(crate) fn finish(self) -> &'a mut B
        ensures lent { result.ghost_name ≡ self.entry.board.ghost_name }
        ensures board { result.now ≡ self.entry.board.now }
    {
        let Plan {
            board,
            rule: _,
            state: _,
        } = self;
        board
    }

    // The same plan in another state. Three clauses here and for release and reopen, since whoever uses a plan cites each by itself.
    fn turn<T>(self) -> Plan<'a, B, R, T>
        ensures lent { result.board.ghost_name ≡ self.entry.board.ghost_name }
        ensures board { result.board.now ≡ self.entry.board.now }
        ensures rule { result.rule ≡ self.entry.rule }
    {
        let Plan {
            board,
            rule,
            state: _,
        } = self;
        Plan {
            board,
            rule,
            state: PhantomData,
        }
    }
}

impl<'a, B: Board, R: Rule> Plan<'a, B, R, Working> {
    // Levels the board at once, and keeps it.
    pub fn make(board: &'a mut B, rule: R) -> WorkingPlan<'a, B, R>
        requires { Good B.build board.old }
        ensures lent { result.board.ghost_name ≡ board.entry.ghost_name }
        ensures rule { result.rule ≡ rule }
        ensures planned { Planned B.build (R.order rule) board.old result.board.now }
    {
        level_on_table(board, rule);
        Plan {
            board,
            rule,
            state: PhantomData,
        }
    }

    // Sets a need: slots that no longer fit are taken away, the need changes, and the plan is levelled.
    pub fn set_need(&mut self, task: usize, core: usize, need: u16) -> Result<(), Fault>
        requires { Standing B.build (R.order self.old.rule) self.old.board.now }
        ensures lent { self.new.board.ghost_name ≡ self.old.board.ghost_name }
        ensures rule { self.new.rule ≡ self.old.rule }
        ensures replanned { Replanned B.build (R.order self.old.rule) self.old.board.now self.new.board.now (plan_need (B.build.meaning self.old.board.now) task core need) result }
    {
        let rule = self.rule;
        set_need(self.board, rule, task, core, need)
    }

    // Sets a capacity, likewise.
    pub fn set_capacity(&mut self, core: usize, capacity: u16) -> Result<(), Fault>
        requires { Standing B.build (R.order self.old.rule) self.old.board.now }
        ensures lent { self.new.board.ghost_name ≡ self.old.board.ghost_name }
        ensures rule { self.new.rule ≡ self.old.rule }
        ensures replanned { Replanned B.build (R.order self.old.rule) self.old.board.now self.new.board.now (plan_capacity (B.build.meaning self.old.board.now) core capacity) result }
    {
        let rule = self.rule;
        set_capacity(self.board, rule, core, capacity)
    }

    pub fn release(self) -> ReleasedPlan<'a, B, R>
        ensures lent { result.board.ghost_name ≡ self.entry.board.ghost_name }
        ensures board { result.board.now ≡ self.entry.board.now }
        ensures rule { result.rule ≡ self.entry.rule }
    {
        self.turn::<Released>()
    }
}

impl<'a, B: Board, R: Rule> Plan<'a, B, R, Released> {
    // Writes the order file of the plan's board, and ends the plan, also where the writing is refused.
    pub fn write(self, tasks: &TaskTable, letter: u8, out: &mut [u8]) -> Result<usize, Fault>
        requires { Standing B.build (R.order self.rule) self.board.now }
        ensures written { Written letter (rows tasks.now) (B.build.meaning self.entry.board.now) out.old out.new result }
        ensures board { self.exit.0.now ≡ self.entry.board.now }
    {
        let Plan {
            board,
            rule: _,
            state: _,
        } = self;
        write(board, tasks, letter, out)
    }

    pub fn reopen(self) -> WorkingPlan<'a, B, R>
        ensures lent { result.board.ghost_name ≡ self.entry.board.ghost_name }
        ensures board { result.board.now ≡ self.entry.board.now }
        ensures rule { result.rule ≡ self.entry.rule }
    {
        self.turn::<Working>()
    }
}

// The totals of all tasks on a board.
pub fn totals_on<B: Board>(board: &B) -> [u32; MOST_TASKS]
    requires { Good B.build board.now }
    ensures { Totals (B.build.meaning board.now) result }
{
    let mut totals = [0; MOST_TASKS];
    for (task, total) in totals.iter_mut().enumerate() {
        *total = board.total(task);
    }
    totals
}
