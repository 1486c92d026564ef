// Numbers as little-endian bytes: written into lent bytes, and read from them.
#![tactic(auto)]

ghost use Rattle.std.specs.Prelude.{◌≡◌, length, drop, leb, ◌<◌, ◌^◌};
ghost use Rattle.octets.specs.Octets.{le, over, words_of, read_at};

// Writes the lowest `width` bytes of x to the front of `out`, or nothing where they do not fit; says whether they did.
pub fn put(out: &mut [u8], width: usize, x: u64) -> bool
    ensures { (result ≡ leb width (length out.old)) × (out.new ≡ over (le width x) out.old) }
{
    if out.len() < width {
        return false;
    }
    let mut rest = x;
    for b in out[..width].iter_mut() {
        *b = (rest % 256) as u8;
        rest /= 256;
    }
    true
}

// Writes numbers, eight bytes each, to the front of `out`, or nothing where they do not fit; says whether they did.
pub fn put_words(out: &mut [u8], words: &[u64]) -> bool
    ensures { (result ≡ leb (length (words_of words.now)) (length out.old)) × (out.new ≡ over (words_of words.now) out.old) }
{
    if out.len() / 8 < words.len() {
        return false;
    }
    let mut at = 0;
    for w in words {
        put(&mut out[at..], 8, *w);
        at += 8;
    }
    true
}

// The number in the `width` bytes from `at` on; 0 where these are not there or are more than eight.
pub fn get(s: &[u8], at: usize, width: usize) -> u64
    ensures { (result ≡ read_at at width s.now) × (result < 256 ^ width) }
{
    if 8 < width || s.len() < at || s.len() - at < width {
        return 0;
    }
    let mut x: u64 = 0;
    for i in (0..width).rev() {
        x = x * 256 + u64::from(s[at + i]);
    }
    x
}

// The number in the eight bytes from `at` on, in one step; 0 where these are not there.
pub fn word(s: &[u8], at: usize) -> u64
    ensures { result ≡ read_at at 8 s.now }
{
    if s.len() < at {
        return 0;
    }
    let Some(bytes) = s[at..].first_chunk::<8>() else {
        return 0;
    };
    u64::from_le_bytes(*bytes)
}
