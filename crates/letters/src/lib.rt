// The rule that an order's letter names.
#![tactic(auto)]

ghost use Rattle.std.specs.Prelude.{◌≡◌};
ghost use Rattle.tasks.specs.Table.{rows};
ghost use Rattle.rules.specs.OrderRules.{order_of};
ghost use Rattle.letters.specs.Letters.{ByLetter};

use rules::{ByNeed, Even, OrderRule, Weighted};
use tasks::table::TaskTable;

// The weighted rule has the weights of the table.
pub fn rule_of(letter: u8, tasks: &TaskTable) -> OrderRule
    ensures { ByLetter letter (rows tasks.now) (λ order. order_of result ≡ order) }
{
    let weights = tasks.weights();
    match letter as char {
        'e' => OrderRule::Even(Even),
        'w' => OrderRule::Weighted(Weighted::new(weights)),
        _ => OrderRule::ByNeed(ByNeed),
    }
}
