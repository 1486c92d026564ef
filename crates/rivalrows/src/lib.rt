// A rival in twelve words, and a field in eight rows of them: what they say, and the words that say a given rival.
#![tactic(auto)]

ghost use Rattle.std.specs.Prelude.{◌≡◌, map};
ghost use Rattle.rivalrows.specs.Rows.{bit_of, rival_in, field_in, marks_word, row_of};

use select::media::{medium_bits, medium_of};
use select::types::*;
use total::{etx_bits, float_of};

// The words of a rival.
pub const ROW: usize = 12;

// Whether bit 0 of a number, as it is or divided by a power of two, is set.
pub fn bit(x: u64) -> bool
    ensures { result ≡ bit_of x }
{
    x % 2 == 1
}

// The rival that a row says.
#[tactic(auto, unfolding(crate::specs::Rows::rival_in))]
pub fn rival_in(w: &[u64; ROW]) -> Rival
    ensures { result ≡ rival_in w.now }
{
    let marks = w[11];
    Rival {
        score: float_of(w[3]),
        steady: float_of(w[7]),
        rtt: w[5],
        base: w[9],
        index: w[1] as usize,
        tier: (w[10] % 256) as u8,
        held: bit(w[0]),
        scored: bit(w[2]),
        steadied: bit(w[6]),
        timed: bit(w[4]),
        based: bit(w[8]),
        preferred: bit(marks),
        pinned: bit(marks / 2),
        fits: bit(marks / 4),
        medium: medium_of(marks / 16),
    }
}

// The marks of a rival in one word.
fn marks_of(r: Rival) -> u64
    ensures { result ≡ marks_word r }
{
    u64::from(r.preferred)
        + 2 * u64::from(r.pinned)
        + 4 * u64::from(r.fits)
        + 16 * medium_bits(r.medium)
}

// The row that says a rival.
pub fn row_of(r: Rival) -> [u64; ROW]
    ensures { (result ≡ row_of r) × (rival_in result ≡ r) }
{
    [
        u64::from(r.held),
        r.index as u64,
        u64::from(r.scored),
        etx_bits(r.score),
        u64::from(r.timed),
        r.rtt,
        u64::from(r.steadied),
        etx_bits(r.steady),
        u64::from(r.based),
        r.base,
        u64::from(r.tier),
        marks_of(r),
    ]
}

// The rows that say a field, each rival in its place. Written out, and not by a loop, so that no row need be stored.
pub fn rows_of(field: [Rival; PATH_MAX_PER_PEER]) -> [[u64; ROW]; PATH_MAX_PER_PEER]
    ensures { (result ≡ map row_of field) × (field_in result ≡ field) }
{
    [
        row_of(field[0]),
        row_of(field[1]),
        row_of(field[2]),
        row_of(field[3]),
        row_of(field[4]),
        row_of(field[5]),
        row_of(field[6]),
        row_of(field[7]),
    ]
}
