// The calls of a run, and which of them a plan takes when.
#![tactic(auto)]

ghost use Rattle.std.specs.Prelude.{◌≡◌, MatchOption};
ghost use Rattle.calls.specs.Turns.{in_turn, phase_after, Legal, FirstOutOfTurn};

// Whether a plan is working, and takes changes, or released.
#[derive(Clone, Copy, PartialEq, Eq, Debug)]
pub enum Phase {
    Working,
    Released,
}

#[derive(Clone, Copy, PartialEq, Eq, Debug)]
pub enum Call {
    SetNeed { task: usize, core: usize, need: u16 },
    SetCapacity { core: usize, capacity: u16 },
    Release,
    Reopen,
}

impl Call {
    // Whether a plan in the phase takes the call.
    pub fn in_turn(self, phase: Phase) -> bool
        ensures { result ≡ in_turn phase self }
    {
        match self {
            Call::Reopen => phase == Phase::Released,
            _ => phase == Phase::Working,
        }
    }

    // The phase of the plan after the call.
    pub fn phase_after(self, phase: Phase) -> Phase
        ensures { result ≡ phase_after phase self }
    {
        match self {
            Call::Release => Phase::Released,
            Call::Reopen => Phase::Working,
            _ => phase,
        }
    }
}

// The place of the first call that is out of turn on a new plan.
pub fn first_out_of_turn(calls: &[Call]) -> Option<usize>
    ensures { MatchOption result (Legal calls.now) (FirstOutOfTurn calls.now) }
{
    let mut phase = Phase::Working;
    for (place, call) in calls.iter().enumerate() {
        if !call.in_turn(phase) {
            return Some(place);
        }
        phase = call.phase_after(phase);
    }
    None
}
