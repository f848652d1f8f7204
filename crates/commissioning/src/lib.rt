// A plan followed line by line through a script: what each line is told, and where the plan then stands.
#![tactic(auto)]

ghost use Rattle.std.specs.Prelude.{◌≡◌};
ghost use Rattle.changes.specs.Standing.{Standing};
ghost use Rattle.plan.specs.States.{lent_of, rule_of, phase_of};
ghost use Rattle.script.specs.Lines.{request_of};
ghost use Rattle.commissioning.specs.Following.{Followed, Seen, counted_of, done_of};
ghost use Rattle.commissioning.specs.declared.NotDone.TheVariants.{NotTaken as Untaken};

use board::fault::Fault;
use board::{Board, MOST_TASKS};
use judge::Verdict;
use plan::runs::{NotTaken, State, attempt};
use plan::states::Plan;
use routes::Step;
use rules::Rule;
use script::{Request, request_of};

// What was done for a line of the script.
#[derive(Clone, Copy)]
pub enum Done {
    // The call was made.
    Taken,
    // The line asks for the judge's verdict alone.
    Judged,
}

// Why nothing was done for a line.
#[derive(Clone, Copy)]
pub enum NotDone {
    NotTaken(NotTaken),
    NotUnderstood,
}

impl From<NotTaken> for NotDone {
    ghost from_gives = { λ why told. told ≡ Untaken why };

    fn from(why: NotTaken) -> NotDone {
        NotDone::NotTaken(why)
    }
}

// What a planner sees of a plan.
#[derive(Clone, Copy)]
pub struct Stand {
    pub totals: [u32; MOST_TASKS],
    pub free: u32,
    pub verdict: Result<Verdict, Fault>,
}

// How often each was told.
#[derive(Clone, Copy, Default)]
pub struct Tally {
    pub taken: u64,
    pub refused: u64,
    pub late: u64,
    pub judged: u64,
    pub unknown: u64,
}

// Plays one line; where it is out of turn or not understood, nothing is done.
pub fn follow<'a, B: Board, R: Rule>(
    state: State<'a, B, R>,
    line: &[u8],
) -> (State<'a, B, R>, Result<Done, NotDone>)
    requires { Standing B.build (R.order (rule_of state)) (lent_of state).now }
    ensures lent { (lent_of result.0).ghost_name ≡ (lent_of state.entry).ghost_name }
    ensures rule { rule_of result.0 ≡ rule_of state.entry }
    ensures standing { Standing B.build (R.order (rule_of result.0)) (lent_of result.0).now }
    ensures followed { Followed B.build (R.order (rule_of state.entry)) (lent_of state.entry).now (lent_of result.0).now (phase_of state.entry) (phase_of result.0) (request_of line.now) result.1 }
{
    match request_of(line) {
        Some(Request::Play(call)) => {
            let (next, told) = attempt(state, call);
            (next, done_or_not(told))
        }
        Some(Request::Judge) => (state, Ok(Done::Judged)),
        None => (state, Err(NotDone::NotUnderstood)),
    }
}

fn done_or_not(told: Result<(), NotTaken>) -> Result<Done, NotDone>
    ensures { result ≡ done_of told }
{
    told?;
    Ok(Done::Taken)
}

// Where the plan stands: its totals, its free slots and the judge's verdict on it.
pub fn look<B: Board, R: Rule>(state: &State<'_, B, R>, route: &mut [Step]) -> Stand
    requires { Standing B.build (R.order (rule_of state.now)) (lent_of state.now).now }
    ensures { Seen (R.order (rule_of state.now)) (B.build.meaning (lent_of state.now).now) route.old route.new result }
{
    match state {
        State::Working(plan) => look_at(plan, route),
        State::Released(plan) => look_at(plan, route),
    }
}

// The same of a plan whose state is known.
fn look_at<B: Board, R: Rule, S>(plan: &Plan<'_, B, R, S>, route: &mut [Step]) -> Stand
    requires { Standing B.build (R.order plan.now.rule) plan.now.board.now }
    ensures { Seen (R.order plan.now.rule) (B.build.meaning plan.now.board.now) route.old route.new result }
{
    Stand {
        totals: plan.totals(),
        free: plan.free_slots(),
        verdict: plan.judge(route),
    }
}

impl Tally {
    // The tally with one more of what was told.
    pub fn counted(self, told: Result<Done, NotDone>) -> Tally
        ensures { result ≡ counted_of self told }
    {
        let mut tally = self;
        match told {
            Ok(Done::Taken) => tally.taken = self.taken.saturating_add(1),
            Ok(Done::Judged) => tally.judged = self.judged.saturating_add(1),
            Err(NotDone::NotTaken(NotTaken::Refused(_))) => {
                tally.refused = self.refused.saturating_add(1)
            }
            Err(NotDone::NotTaken(NotTaken::OutOfTurn)) => tally.late = self.late.saturating_add(1),
            Err(NotDone::NotUnderstood) => tally.unknown = self.unknown.saturating_add(1),
        }
        tally
    }
}
