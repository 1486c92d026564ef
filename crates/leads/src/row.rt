// What is asked of one row.
ghost use Rattle.std.specs.Prelude.{◌≡◌, ◌≤◌};
ghost use Rattle.select.specs.Rivals.{at_place};
ghost use Rattle.rivalrows.specs.Rows.{rival_in};
ghost use Rattle.leads.specs.Keys.{off_key, is_beyond, rank_key, score_key, wait_key, trip_key, speed_key};

use rivalrows::{ROW, bit};
use total::{pattern_key, pick};

// The key of a rival that is not asked: none is above it.
pub const OFF: u64 = 0xffff_ffff_ffff_ffff;

// Whether there is a rival.
#[tactic(auto, unfolding(rivalrows::specs::Rows::rival_in))]
pub fn held(w: &[u64; ROW]) -> bool
    ensures { result ≡ (rival_in w.now).held }
{
    bit(w[0])
}

// Whether it has a round trip beyond the longest that is let through.
#[tactic(auto, unfolding(rivalrows::specs::Rows::rival_in, crate::specs::Keys::is_beyond))]
pub fn past(w: &[u64; ROW], longest: u64) -> bool
    ensures { result ≡ is_beyond longest (rival_in w.now) }
{
    (bit(w[4]) & (longest < w[5])) | (bit(w[8]) & (longest < w[9]))
}

// Whether it has its place for index, if there is one.
#[tactic(auto, unfolding(rivalrows::specs::Rows::rival_in))]
pub fn at_place(w: &[u64; ROW], place: u64) -> bool
    ensures { result ≡ at_place place (rival_in w.now) }
{
    !held(w) | (w[1] == place)
}

// Whether it is preferred.
#[tactic(auto, unfolding(rivalrows::specs::Rows::rival_in))]
pub fn preferred(w: &[u64; ROW]) -> bool
    ensures { result ≡ (rival_in w.now).preferred }
{
    bit(w[11])
}

// The rank of its medium by speed, by the medium's number.
#[tactic(auto, unfolding(rivalrows::specs::Rows::rival_in, crate::specs::Keys::speed_key))]
pub fn speed(w: &[u64; ROW]) -> u64
    ensures { result ≡ speed_key (rival_in w.now) }
{
    let m = w[11] / 16 % 4;
    pick(m == 3, 3, (m + 2) % 3)
}

// The key of its rank: pinned before tier before fitting, the highest first.
#[tactic(auto, unfolding(rivalrows::specs::Rows::rival_in, crate::specs::Keys::rank_key))]
pub fn rank_key(w: &[u64; ROW]) -> u64
    ensures { result ≡ rank_key (rival_in w.now) }
{
    let marks = w[11];
    let tier = w[10];
    let here = held(w);
    pick(
        here,
        1024 - (marks / 2 % 2 * 512 + tier % 256 * 2 + marks / 4 % 2),
        OFF,
    )
}

// The key of its score, if it has the rank and a score.
#[tactic(auto, unfolding(rivalrows::specs::Rows::rival_in, crate::specs::Keys::score_key))]
pub fn score_key(w: &[u64; ROW], top: u64) -> u64
    ensures { result ≡ score_key top (rival_in w.now) }
{
    let asked = (rank_key(w) == top) & bit(w[2]);
    let k = pattern_key(w[3]);
    pick(asked, k, OFF)
}

// 0 where its round trip is known and 1 where not, if it has the rank.
#[tactic(auto, unfolding(rivalrows::specs::Rows::rival_in, crate::specs::Keys::wait_key))]
pub fn wait_key(w: &[u64; ROW], top: u64) -> u64
    ensures { result ≡ wait_key top (rival_in w.now) }
{
    let asked = rank_key(w) == top;
    let k = pick(bit(w[4]), 0, 1);
    pick(asked, k, OFF)
}

// Its round trip, if it has the rank and a known one; a number of 64 bits.
#[tactic(auto, unfolding(rivalrows::specs::Rows::rival_in, crate::specs::Keys::trip_key))]
pub fn trip_key(w: &[u64; ROW], top: u64) -> u64
    ensures { (result ≡ trip_key top (rival_in w.now)) × (result ≤ off_key) }
{
    let asked = (rank_key(w) == top) & bit(w[4]);
    let trip = w[5];
    pick(asked, trip, OFF)
}
