// The keys of a field: for each question a number for each rival, OFF where it is not asked. By `from_fn`, since
// `each_ref().map(..)` made a choice of 75 to 90 ns one of 115 to 140.
ghost use Rattle.std.specs.Prelude.{◌≡◌, true, not, ◌||◌, map};
ghost use Rattle.rivalrows.specs.Rows.{field_in};
ghost use Rattle.leads.specs.Keys.{rank_key, score_key, wait_key, trip_key, speed_key, left_keys, is_near_key};
ghost use Rattle.leads.specs.Keys.{is_speed, are_words};

use crate::row::*;
use rivalrows::ROW;
use select::types::PATH_MAX_PER_PEER;
use std::array;
use total::pick;

// The keys of the ranks.
pub fn rank_keys(field: &[[u64; ROW]; PATH_MAX_PER_PEER]) -> [u64; PATH_MAX_PER_PEER]
    ensures { result ≡ map rank_key (field_in field.now) }
{
    array::from_fn(|i| rank_key(&field[i]))
}

// The keys of the scores of those with a rank.
pub fn score_keys(field: &[[u64; ROW]; PATH_MAX_PER_PEER], top: u64) -> [u64; PATH_MAX_PER_PEER]
    ensures { result ≡ map (score_key top) (field_in field.now) }
{
    array::from_fn(|i| score_key(&field[i], top))
}

// Which of those with a rank have no known round trip.
pub fn wait_keys(field: &[[u64; ROW]; PATH_MAX_PER_PEER], top: u64) -> [u64; PATH_MAX_PER_PEER]
    ensures { result ≡ map (wait_key top) (field_in field.now) }
{
    array::from_fn(|i| wait_key(&field[i], top))
}

// The known round trips of those with a rank; numbers of 64 bits.
pub fn trip_keys(field: &[[u64; ROW]; PATH_MAX_PER_PEER], top: u64) -> [u64; PATH_MAX_PER_PEER]
    ensures { (result ≡ map (trip_key top) (field_in field.now)) × (are_words result ≡ true) }
{
    array::from_fn(|i| trip_key(&field[i], top))
}

// The media, by speed.
pub fn speeds(field: &[[u64; ROW]; PATH_MAX_PER_PEER]) -> [u64; PATH_MAX_PER_PEER]
    ensures { result ≡ map speed_key (field_in field.now) }
{
    array::from_fn(|i| speed(&field[i]))
}

// Of some keys those of the preferred, where `only` says so.
pub fn preferred_keys(
    field: &[[u64; ROW]; PATH_MAX_PER_PEER],
    keys: [u64; PATH_MAX_PER_PEER],
    only: bool,
) -> [u64; PATH_MAX_PER_PEER]
    ensures { result ≡ left_keys (λ q. q.preferred || not only) (field_in field.now) keys }
{
    array::from_fn(|i| pick(preferred(&field[i]) | !only, keys[i], OFF))
}

// Of some speeds those of the near, whose keys are at most `limit`.
pub fn near_speeds(
    keys: [u64; PATH_MAX_PER_PEER],
    limit: u64,
    speeds: [u64; PATH_MAX_PER_PEER],
) -> [u64; PATH_MAX_PER_PEER]
    ensures { result ≡ left_keys (is_near_key limit) keys speeds }
{
    array::from_fn(|i| pick(keys[i] <= limit, speeds[i], OFF))
}

// Of some keys those of the near over a medium of a speed.
pub fn class_keys(
    keys: [u64; PATH_MAX_PER_PEER],
    limit: u64,
    speeds: [u64; PATH_MAX_PER_PEER],
    speed: u64,
) -> [u64; PATH_MAX_PER_PEER]
    ensures { result ≡ left_keys (is_speed speed) speeds (left_keys (is_near_key limit) keys keys) }
{
    array::from_fn(|i| pick((keys[i] <= limit) & (speeds[i] == speed), keys[i], OFF))
}
