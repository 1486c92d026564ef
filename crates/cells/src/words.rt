// Single words: numbers by their width, what may be missing, bits; and a row with a word or a half anew.
ghost use Rattle.std.specs.Prelude.{◌≡◌, cond, ◌%◌, ◌^◌, ◌<◌, ◌≤◌};
ghost use Rattle.cells.specs.Cells.{with_word, with_half, bit_in, with_bit, id_in, length_in, instant_in};
ghost use Rattle.cells.specs.Code.{id_word, len_word};

use base::types::*;
use total::pick;

// A number of 32 bits. A line for each width: no form of the library truncates.
pub fn low(x: u64) -> u32
    ensures { result ≡ x % 2 ^ 32 }
{
    (x % 0x1_0000_0000) as u32
}

// A number of 16 bits.
pub fn short(x: u64) -> u16
    ensures { result ≡ x % 65536 }
{
    (x % 65536) as u16
}

// The identifier that a word says.
pub fn id_in(x: u64) -> Option<u32>
    ensures { result ≡ id_in x }
{
    x.checked_sub(1).map(low)
}

// The word that says an identifier.
pub fn id_word(m: Option<u32>) -> u64
    ensures { (result ≡ id_word m) × (id_in result ≡ m) }
{
    m.map_or(0, |id| u64::from(id) + 1)
}

// The length that a word says.
pub fn len_in(x: u64) -> Option<u16>
    ensures { result ≡ length_in x }
{
    x.checked_sub(1).map(short)
}

// The word that says a length.
pub fn len_word(m: Option<u16>) -> u64
    ensures { (result ≡ len_word m) × (length_in result ≡ m) × (result ≤ 65536) }
{
    m.map_or(0, |n| u64::from(n) + 1)
}

// The instant or the duration that two words say.
pub fn time_in(tag: u64, t: u64) -> Option<u64>
    ensures { result ≡ instant_in tag t }
{
    (tag != 0).then_some(t)
}

// A row with the word at a place anew.
pub fn put(t: [u64; 4], k: usize, w: u64) -> [u64; 4]
    ensures { result ≡ with_word t k w }
{
    [
        pick(k == 0, w, t[0]),
        pick(k == 1, w, t[1]),
        pick(k == 2, w, t[2]),
        pick(k == 3, w, t[3]),
    ]
}

// A row with half of it anew: the last two words, or the first two.
pub fn put_half(t: [u64; 4], last: bool, x: u64, y: u64) -> [u64; 4]
    ensures { result ≡ with_half t last x y }
{
    [
        pick(last, t[0], x),
        pick(last, t[1], y),
        pick(last, x, t[2]),
        pick(last, y, t[3]),
    ]
}

// The bit of a word at a place; place 64 is 0 again.
#[tactic(auto, unfolding(crate::specs::Cells::bit_in))]
pub fn bit_in(m: u64, i: usize) -> bool
    ensures { result ≡ bit_in m (i % 64) }
{
    (m >> (i % 64)) % 2 == 1
}

// A word with the bit at a place anew; place 64 is 0 again.
pub fn with_bit(m: u64, i: usize, on: bool) -> u64
    ensures { result ≡ with_bit m (i % 64) on }
{
    let k = i % 64;
    let bit = u64::from(on);
    let high = (m >> k) / 2 * 2 + bit;
    let low = m % (1 << k);
    (high << k) + low
}
