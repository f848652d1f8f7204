// A plan: a board that is kept fairest under one rule, through every change of its needs and capacities.
#![tactic(auto)]

pub mod runs;
pub mod states;
