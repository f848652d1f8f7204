// Rules of shares: how two tasks' shares compare.
#![tactic(auto)]

ghost use Rattle.std.specs.Prelude.{◌≡◌, ◌*◌, ◌≤◌};
ghost use Rattle.std.specs.Ordering.{nat_cmp};
ghost use Rattle.fairness.specs.Laws.{Comparison, Lawful, most_counted};
ghost use Rattle.fairness.specs.Even.{even, counted};
ghost use Rattle.rules.specs.Comparisons.{weighted, by_need, weight, divisor};
ghost use Rattle.fairness.proofs.Standings.{even-lawful};
ghost use Rattle.rules.specs.WorkedPlans.{WorkedPlansAgree};
ghost use Rattle.rules.specs.Lawful.{weighted-lawful, by-need-lawful};
ghost use Rattle.rules.specs.OrderRules.{order_of, order-lawful};

use fairness::Share;
use std::cmp::Ordering;

// A rule is plain and copyable, and answers from its own fixed numbers and the two shares alone: whether the first stands
// below the second (`Less`), level with it (`Equal`) or above it (`Greater`).
pub trait Rule: Copy {
    ghost order: { Self → Comparison };

    ghost lawful: { (rule : Self) → Lawful (order rule) };

    fn compare(&self, a: Share, b: Share) -> Ordering
        ensures { result ≡ order self.now a b };
}

// The greatest amount that rules tell apart from a smaller one.
const MOST_COUNTED: u32 = 16000;

// The slots that count: no product of two such numbers leaves 32 bits.
fn count(slots: u32) -> u32
    ensures { result ≡ counted slots }
{
    slots.min(MOST_COUNTED)
}

// Every task counts alike: its level is its total.
#[derive(Clone, Copy)]
pub struct Even;

impl Rule for Even {
    ghost order = { λ _. even };

    ghost lawful = { λ _. even-lawful };

    fn compare(&self, a: Share, b: Share) -> Ordering {
        count(a.total).cmp(&count(b.total))
    }
}

// Where one total over its divisor stands, seen from another: cross products tell it without a division.
fn compare_fractions(a: Share, under_a: u32, b: Share, under_b: u32) -> Ordering
    requires { (under_a ≤ most_counted) × (under_b ≤ most_counted) }
    ensures { result ≡ nat_cmp (counted a.total * under_b) (counted b.total * under_a) }
{
    let left = count(a.total) * under_b;
    let right = count(b.total) * under_a;
    left.cmp(&right)
}

// Each task has a weight from 1 to 100: its level is its total over its weight.
#[derive(Clone, Copy)]
pub struct Weighted {
    weights: [u8; 64],
}

impl Weighted {
    // Weights outside 1 to 100 count as the nearest of these.
    pub fn new(weights: [u8; 64]) -> Weighted
        ensures { result.weights ≡ weights }
    {
        Weighted { weights }
    }

    fn weight_of(&self, task: usize) -> u32
        ensures { result ≡ weight self.now.weights task }
    {
        self.weights[task.min(63)].clamp(1, 100) as u32
    }
}

impl Rule for Weighted {
    ghost order = { λ rule. weighted rule.weights };

    ghost lawful = { λ rule. weighted-lawful rule.weights };

    fn compare(&self, a: Share, b: Share) -> Ordering {
        compare_fractions(a, self.weight_of(a.task), b, self.weight_of(b.task))
    }
}

// A task's level is its total over its whole need.
#[derive(Clone, Copy)]
pub struct ByNeed;

// What a total is divided by: the whole need, where 0 counts as 1.
fn divide_by(whole_need: u32) -> u32
    ensures { result ≡ divisor whole_need }
{
    count(whole_need).max(1)
}

impl Rule for ByNeed {
    ghost order = { λ _. by_need };

    ghost lawful = { λ _. by-need-lawful };

    fn compare(&self, a: Share, b: Share) -> Ordering {
        compare_fractions(a, divide_by(a.whole_need), b, divide_by(b.whole_need))
    }
}

// The rule of one order, where which it is shows only when the program runs.
#[derive(Clone, Copy)]
pub enum OrderRule {
    Even(Even),
    Weighted(Weighted),
    ByNeed(ByNeed),
}

impl Rule for OrderRule {
    ghost order = { order_of };

    ghost lawful = { order-lawful };

    fn compare(&self, a: Share, b: Share) -> Ordering {
        match self {
            OrderRule::Even(rule) => rule.compare(a, b),
            OrderRule::Weighted(rule) => rule.compare(a, b),
            OrderRule::ByNeed(rule) => rule.compare(a, b),
        }
    }
}

// The definitions agree with the worked plans.
pub fn worked_plans_agree()
    ensures { WorkedPlansAgree }
{}
