// A run: a list of calls played on a new plan, with a note of each answer and of the totals at that point.
ghost use Rattle.std.specs.Prelude.{◌≡◌, ◌≤◌, true, length};
ghost use Rattle.board.specs.Boards.{Good, Went};
ghost use Rattle.calls.specs.Turns.{in_turn, phase_after, Legal};
ghost use Rattle.changes.specs.Standing.{Standing, Replanned};
ghost use Rattle.plan.specs.Plans.{Totals};
ghost use Rattle.plan.specs.Runs.{Ran, NotesPast, RunTold, outcome_of};
ghost use Rattle.plan.specs.Attempts.{Attempted};
ghost use Rattle.plan.specs.declared.runs.NotTaken.TheVariants.{Refused};
ghost use Rattle.plan.specs.States.{lent_of, rule_of, phase_of};

use crate::states::{ReleasedPlan, WorkingPlan};
use board::fault::Fault;
use board::{Board, MOST_TASKS};
pub use calls::{Call, Phase, first_out_of_turn};
use rules::Rule;

// What a call was told, and the totals of the plan that it left.
#[derive(Clone, Copy)]
pub struct Note {
    pub answer: Result<(), Fault>,
    pub totals: [u32; MOST_TASKS],
}

// Why a run is not played at all.
#[derive(Clone, Copy)]
pub enum RunRefusal {
    // The call at this place is the first one out of turn.
    NotLegal(usize),
    // There are fewer notes than calls.
    NotesTooFew,
}

// Why a call on a plan in either state is not taken.
#[derive(Clone, Copy)]
pub enum NotTaken {
    Refused(Fault),
    // The plan's state does not take the call, and nothing was done.
    OutOfTurn,
}

impl From<Fault> for NotTaken {
    ghost from_gives = { λ fault told. told ≡ Refused fault };

    fn from(fault: Fault) -> NotTaken {
        NotTaken::Refused(fault)
    }
}

// A plan in either state. Where it is taken apart the arms look alike, but their plans are of two types.
pub enum State<'a, B, R> {
    Working(WorkingPlan<'a, B, R>),
    Released(ReleasedPlan<'a, B, R>),
}

impl<'a, B: Board, R: Rule> State<'a, B, R> {
    pub fn phase(&self) -> Phase
        ensures { result ≡ phase_of self.now }
    {
        match self {
            State::Working(_) => Phase::Working,
            State::Released(_) => Phase::Released,
        }
    }

    pub fn totals(&self) -> [u32; MOST_TASKS]
        requires { Standing B.build (R.order (rule_of self.now)) (lent_of self.now).now }
        ensures { Totals (B.build.meaning (lent_of self.now).now) result }
    {
        match self {
            State::Working(plan) => plan.totals(),
            State::Released(plan) => plan.totals(),
        }
    }

    fn finish(self) -> &'a mut B
        ensures lent { result.ghost_name ≡ (lent_of self.entry).ghost_name }
        ensures board { result.now ≡ (lent_of self.entry).now }
    {
        match self {
            State::Working(plan) => plan.finish(),
            State::Released(plan) => plan.finish(),
        }
    }
}

// Makes a call where the plan's state takes it; else nothing is done.
pub fn attempt<'a, B: Board, R: Rule>(
    state: State<'a, B, R>,
    call: Call,
) -> (State<'a, B, R>, Result<(), NotTaken>)
    requires { Standing B.build (R.order (rule_of state)) (lent_of state).now }
    ensures lent { (lent_of result.0).ghost_name ≡ (lent_of state.entry).ghost_name }
    ensures rule { rule_of result.0 ≡ rule_of state.entry }
    ensures attempted { Attempted B.build (R.order (rule_of state.entry)) (lent_of state.entry).now (lent_of result.0).now (phase_of state.entry) (phase_of result.0) call result.1 }
{
    if !call.in_turn(state.phase()) {
        return (state, Err(NotTaken::OutOfTurn));
    }
    let (next, told) = step(state, call);
    (next, told.map_err(NotTaken::from))
}

// Makes a call that is in turn.
fn step<'a, B: Board, R: Rule>(
    state: State<'a, B, R>,
    call: Call,
) -> (State<'a, B, R>, Result<(), Fault>)
    requires standing { Standing B.build (R.order (rule_of state)) (lent_of state).now }
    requires turn { in_turn (phase_of state) call ≡ true }
    ensures lent { (lent_of result.0).ghost_name ≡ (lent_of state.entry).ghost_name }
    ensures rule { rule_of result.0 ≡ rule_of state.entry }
    ensures phase { phase_of result.0 ≡ phase_after (phase_of state.entry) call }
    ensures replanned { Replanned B.build (R.order (rule_of state.entry)) (lent_of state.entry).now (lent_of result.0).now (outcome_of (B.build.meaning (lent_of state.entry).now) call) result.1 }
{
    match state {
        State::Working(mut plan) => match call {
            Call::SetNeed { task, core, need } => {
                let answer = plan.set_need(task, core, need);
                (State::Working(plan), answer)
            }
            Call::SetCapacity { core, capacity } => {
                let answer = plan.set_capacity(core, capacity);
                (State::Working(plan), answer)
            }
            _ => (State::Released(plan.release()), Ok(())),
        },
        State::Released(plan) => (State::Working(plan.reopen()), Ok(())),
    }
}

// Plays a legal list of calls.
fn play<B: Board, R: Rule>(board: &mut B, rule: R, calls: &[Call], notes: &mut [Note])
    requires good { Good B.build board.old }
    requires legal { Legal calls.now }
    requires room { length calls.now ≤ length notes.old }
    ensures went { Went B.build board.old board.new }
    ensures ran { Ran (R.order rule) (B.build.meaning board.old) calls.now notes.new (B.build.meaning board.new) }
    ensures rest { NotesPast (length calls.now) notes.old notes.new }
{
    let mut state = State::Working(WorkingPlan::make(board, rule));
    // By place, as the promise speaks of the note at the call's place; the list may be longer.
    for (place, call) in calls.iter().enumerate() {
        let (next, answer) = step(state, *call);
        let totals = next.totals();
        notes[place] = Note { answer, totals };
        state = next;
    }
    let _back = state.finish();
}

// Makes a plan on the board and plays the calls, with a note of each; or refuses before anything is done.
pub fn run<B: Board, R: Rule>(
    board: &mut B,
    rule: R,
    calls: &[Call],
    notes: &mut [Note],
) -> Result<(), RunRefusal>
    requires { Good B.build board.old }
    ensures went { Went B.build board.old board.new }
    ensures told { RunTold B.build.meaning (R.order rule) board.old board.new calls.now notes.old notes.new result }
{
    if let Some(place) = first_out_of_turn(calls) {
        return Err(RunRefusal::NotLegal(place));
    }
    if notes.len() < calls.len() {
        return Err(RunRefusal::NotesTooFew);
    }
    play(board, rule, calls, notes);
    Ok(())
}
