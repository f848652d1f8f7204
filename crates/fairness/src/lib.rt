// What a rule of shares sees of a task; and the theorems on fairest plans, each named by a function's contract.
#![tactic(auto)]

ghost use Rattle.fairness.specs.Theorems.{SettledFairest, FairestSettled, FreeSlotFairer, ExchangeFairer, FairestExactly, FairestSameLevels, FairestWithinOne, LevellingEnds};
ghost use Rattle.fairness.specs.Decision.{FairestDecided};
ghost use Rattle.fairness.specs.Readings.{ReadingsAgree};
ghost use Rattle.fairness.specs.Lexicographic.{EvenLexicographic};

// What a rule is told of a task: its number, the sum of its needs and the sum of its slots over all cores.
#[derive(Clone, Copy)]
pub struct Share {
    pub task: usize,
    pub whole_need: u32,
    pub total: u32,
}

// A settled plan is fairest.
pub fn settled_is_fairest()
    ensures { SettledFairest }
{}

// A fairest plan is settled.
pub fn fairest_is_settled()
    ensures { FairestSettled }
{}

// A free slot taken makes a plan fairer.
pub fn free_slot_is_fairer()
    ensures { FreeSlotFairer }
{}

// An exchange that passes the test makes a plan fairer.
pub fn exchange_is_fairer()
    ensures { ExchangeFairer }
{}

// Fairest is the same as: no free slot that a task needs, and no fairer route.
pub fn fairest_exactly()
    ensures { FairestExactly }
{}

// Two fairest plans have the same list of levels.
pub fn same_levels()
    ensures { FairestSameLevels }
{}

// Two fairest plans give no task totals more than one apart.
pub fn totals_within_one()
    ensures { FairestWithinOne }
{}

// Every free slot taken and every exchange that passes the test lowers one number.
pub fn levelling_ends()
    ensures { LevellingEnds }
{}

// Under the even rule, fairest is the same as lexicographically fair.
pub fn even_is_lexicographic()
    ensures { EvenLexicographic }
{}

// A computation tells the fairest plans from the others.
pub fn fairest_is_decided()
    ensures { FairestDecided }
{}

// Fairer by all lower levels is the same as fairer by those that a task has in either plan.
pub fn readings_agree()
    ensures { ReadingsAgree }
{}
