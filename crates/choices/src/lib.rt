// The choice over a field of given rivals, and the best score: in words, and by value.
#![tactic(auto)]

ghost use Rattle.std.specs.Prelude.{◌≡◌};
ghost use Rattle.select.specs.Choice.{choose_of, best_of};

use base::types::Refusal;
use rivalrows::rows_of;
use select::types::*;

pub mod steps;
pub mod words;

// The place of the path to take.
pub fn choose(field: [Rival; PATH_MAX_PER_PEER], margin: f64) -> Result<usize, Refusal>
    ensures { result ≡ choose_of field margin }
{
    let rows = rows_of(field);
    words::choose_in(&rows, margin)
}

// The least score among the ranked.
pub fn best(field: [Rival; PATH_MAX_PER_PEER]) -> Result<Option<f64>, Refusal>
    ensures { result ≡ best_of field }
{
    let rows = rows_of(field);
    words::best_in(&rows)
}
