// The steps of a choice, each by the least of some keys.
ghost use Rattle.std.specs.Prelude.{◌≡◌, true, map, get_or};
ghost use Rattle.rivalrows.specs.Rows.{field_in};
ghost use Rattle.leads.specs.Keys.{trip_key, are_words};
ghost use Rattle.choices.specs.Steps.{over_medium, after_best, soonest_of};

use leads::keys::*;
use leads::least::*;
use leads::row::OFF;
use rivalrows::ROW;
use select::types::PATH_MAX_PER_PEER;
use total::{key_float, limit_key, pick};

// The key at a place, 0 past the last.
fn entry(keys: [u64; PATH_MAX_PER_PEER], at: usize) -> u64
    ensures { result ≡ get_or keys at 0 }
{
    keys.get(at).copied().unwrap_or(0)
}

// The place of the first near one over a quicker medium than that at `at`, by medium, score, place; else `at`.
fn over(
    keys: [u64; PATH_MAX_PER_PEER],
    limit: u64,
    speeds: [u64; PATH_MAX_PER_PEER],
    at: usize,
) -> usize
    ensures { result ≡ over_medium keys limit speeds at }
{
    let pace = entry(speeds, at);
    if pace == 3 {
        return at;
    }
    let quick = least(near_speeds(keys, limit, speeds));
    if quick.key < pace {
        return least(class_keys(keys, limit, speeds, quick.key)).at;
    }
    at
}

// The place to take where one has a score, the best: that of the first preferred one near it, else its own, unless one so
// near is over a quicker medium.
pub fn after(
    field: &[[u64; ROW]; PATH_MAX_PER_PEER],
    keys: [u64; PATH_MAX_PER_PEER],
    best: Lead,
    margin: f64,
) -> usize
    ensures { result ≡ after_best (field_in field.now) keys best margin }
{
    let limit = limit_key(key_float(best.key) * margin);
    let second = least(preferred_keys(field, keys, true));
    let only = second.key <= limit;
    let at = pick(only, second.at, best.at);
    over(preferred_keys(field, keys, only), limit, speeds(field), at)
}

// The place to take where none has a score: that of the least known round trip, else the first.
pub fn soonest(field: &[[u64; ROW]; PATH_MAX_PER_PEER], top: u64) -> usize
    ensures { (result ≡ soonest_of (field_in field.now) top)
        × (are_words (map (trip_key top) (field_in field.now)) ≡ true) }
{
    let trip = least(trip_keys(field, top));
    if trip.key == OFF {
        let first = least(wait_keys(field, top));
        return first.at;
    }
    trip.at
}
