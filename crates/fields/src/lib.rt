// Rivals from bytes: twelve little-endian numbers of eight bytes for each, which are the words of its row.
#![tactic(auto)]

ghost use Rattle.std.specs.Prelude.{◌≡◌};
ghost use Rattle.fields.specs.Fields.{row_from, rival_from, rows_of};

use octets::word;
use rivalrows::{ROW, rival_in};
use select::types::*;

// The bytes of a rival.
pub const RIVAL_LEN: usize = 8 * ROW;

// The bytes of a field, a rival for each place.
pub const FIELD_LEN: usize = PATH_MAX_PER_PEER * RIVAL_LEN;

// The bytes of a pair of rivals.
pub const PAIR_LEN: usize = 2 * RIVAL_LEN;

// The row whose twelve numbers stand at the front of the bytes.
fn row_from(part: &[u8]) -> [u64; ROW]
    ensures { result ≡ row_from part.now }
{
    [
        word(part, 0),
        word(part, 8),
        word(part, 16),
        word(part, 24),
        word(part, 32),
        word(part, 40),
        word(part, 48),
        word(part, 56),
        word(part, 64),
        word(part, 72),
        word(part, 80),
        word(part, 88),
    ]
}

// The rival whose twelve numbers stand at the front of the bytes.
pub fn rival_from(part: &[u8]) -> Rival
    ensures { result ≡ rival_from part.now }
{
    let row = row_from(part);
    rival_in(&row)
}

// The rows of a field; rows of nothing where there are fewer bytes than a field has. Written out, and not by a loop, so
// that no row need be stored.
pub fn rows_from(bytes: &[u8]) -> [[u64; ROW]; PATH_MAX_PER_PEER]
    ensures { result ≡ rows_of bytes.now }
{
    if bytes.len() < FIELD_LEN {
        return [[0; ROW]; PATH_MAX_PER_PEER];
    }
    [
        row_from(bytes),
        row_from(&bytes[96..]),
        row_from(&bytes[192..]),
        row_from(&bytes[288..]),
        row_from(&bytes[384..]),
        row_from(&bytes[480..]),
        row_from(&bytes[576..]),
        row_from(&bytes[672..]),
    ]
}
