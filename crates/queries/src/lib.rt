// What is read of a record in rows and leaves it: the choice among its paths, and the standing of one.
#![tactic(auto)]

ghost use Rattle.std.specs.Prelude.{◌≡◌, length};

use rows::places::ROWS;
use select::types::PATH_MAX_PER_PEER;

pub mod choice;
pub mod standings;

// How many slots are lent.
fn count(q: &[[[u64; 4]; ROWS]]) -> usize
    ensures { result ≡ length q.now }
{
    q.len()
}

// A record has eight slots: a call of this says it to a proof, and costs nothing.
pub fn slots(rec: &[[[u64; 4]; ROWS]; PATH_MAX_PER_PEER]) -> usize
    ensures { (result ≡ 8) × (length rec.now ≡ 8) }
{
    count(rec)
}
