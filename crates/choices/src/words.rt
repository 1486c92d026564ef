// The choice over a field in words.
ghost use Rattle.std.specs.Prelude.{◌≡◌, not};
ghost use Rattle.select.specs.Rivals.{placed};
ghost use Rattle.select.specs.Choice.{none_is, rivals_of, choose_of, best_of};
ghost use Rattle.rivalrows.specs.Rows.{field_in};
ghost use Rattle.leads.specs.Keys.{is_beyond};
ghost use Rattle.choices.specs.Steps.{seated_of, answer_up_to, score_at, best_refusal};

use crate::steps::*;
use base::limits::DURATION_END;
use base::types::Refusal;
use leads::keys::*;
use leads::least::*;
use leads::row::*;
use rivalrows::{ROW, rival_in};
use select::types::*;

// The longest round trip that a choice among given rivals lets through.
const LONGEST: u64 = DURATION_END - 1;

// Whether a held rival has a round trip beyond the longest that is let through. By "or" of all eight, and not by `any`,
// whose branches the choice is to be without.
fn any_past(field: &[[u64; ROW]; PATH_MAX_PER_PEER], longest: u64) -> bool
    ensures { result ≡ not (none_is (is_beyond longest) (rivals_of (field_in field.now))) }
{
    let mut found = false;
    for w in field {
        found |= held(w) & past(w, longest);
    }
    found
}

// 12: whether a held rival's index is not its place. By "or" too.
fn any_stray(field: &[[u64; ROW]; PATH_MAX_PER_PEER]) -> bool
    ensures { result ≡ not (placed 0 (field_in field.now)) }
{
    let mut found = false;
    for (i, w) in field.iter().enumerate() {
        let here = !at_place(w, i as u64);
        found |= here;
    }
    found
}

// The choice: 6 for a round trip beyond the longest that is let through, 12, 11, or the slot. All of the choice is in this
// one function, so that the compiler need not call a part of it.
fn answer_in(
    field: &[[u64; ROW]; PATH_MAX_PER_PEER],
    margin: f64,
    longest: u64,
) -> Result<usize, Refusal>
    ensures { result ≡ answer_up_to longest (field_in field.now) margin }
{
    if any_past(field, longest) {
        return Err(Refusal::Duration);
    }
    if any_stray(field) {
        return Err(Refusal::Index);
    }
    let top = least(rank_keys(field));
    if top.key == OFF {
        return Err(Refusal::NoPath);
    }
    let keys = score_keys(field, top.key);
    let best = least(keys);
    if best.key == OFF {
        return Ok(soonest(field, top.key));
    }
    Ok(after(field, keys, best, margin))
}

// The slot of the rival to take, of rivals whose round trips are not tried.
pub fn picked_in(field: &[[u64; ROW]; PATH_MAX_PER_PEER], margin: f64) -> Result<usize, Refusal>
    ensures { result ≡ seated_of (field_in field.now) margin }
{
    answer_in(field, margin, u64::MAX)
}

// The place of the path to take.
pub fn choose_in(field: &[[u64; ROW]; PATH_MAX_PER_PEER], margin: f64) -> Result<usize, Refusal>
    ensures { result ≡ choose_of (field_in field.now) margin }
{
    answer_in(field, margin, LONGEST)
}

// The score of the rival at a place, if there is one.
fn score_at(field: &[[u64; ROW]; PATH_MAX_PER_PEER], at: usize) -> Result<Option<f64>, Refusal>
    ensures { result ≡ score_at (field_in field.now) at }
{
    let Some(w) = field.get(at) else {
        return Ok(None);
    };
    let r = rival_in(w);
    Ok(r.scored.then_some(r.score))
}

// The refusal; that there is no path is none.
#[tactic(auto, unfolding(crate::specs::Steps::best_refusal))]
fn best_refused(why: Refusal) -> Result<Option<f64>, Refusal>
    ensures { result ≡ best_refusal why }
{
    match why {
        Refusal::NoPath => Ok(None),
        _ => Err(why),
    }
}

// The least score among the ranked: that of the rival which is chosen where none is near, as with a NaN for margin.
pub fn best_in(field: &[[u64; ROW]; PATH_MAX_PER_PEER]) -> Result<Option<f64>, Refusal>
    ensures { result ≡ best_of (field_in field.now) }
{
    let nan = f64::NAN;
    match choose_in(field, nan) {
        Ok(n) => score_at(field, n),
        Err(why) => best_refused(why),
    }
}
