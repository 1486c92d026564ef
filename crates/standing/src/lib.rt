// The standing of a path: what is told of it, as bytes that a caller lends.
#![tactic(auto)]

ghost use Rattle.std.specs.Prelude.{◌≡◌, ◌≤◌, length};
ghost use Rattle.octets.specs.Octets.{flat, over};
ghost use Rattle.standing.specs.Standing.{bytes_in, standing_bytes, written_of, width_of};

use base::types::*;
use types::*;

pub mod layout;
pub mod types;

// The bytes of a field: none where it is missing.
fn width(f: Field) -> usize
    ensures { (result ≡ width_of f) × (result ≤ 255) }
{
    f.value.map_or(0, |_| usize::from(f.width))
}

// Writes a field over the front of `out`, or nothing where it is missing or does not fit; says how many bytes it has.
fn field(out: &mut [u8], f: Field) -> usize
    ensures { (result ≡ width_of f) × (out.new ≡ over (bytes_in f) out.old) }
{
    let n = width(f);
    octets::put(out, n, f.value.unwrap_or(0));
    n
}

// The bytes of nine fields.
fn total(parts: [Field; 9]) -> usize
    ensures { result ≡ length (flat bytes_in parts) }
{
    let mut n: usize = 0;
    for f in parts {
        n += width(f);
    }
    n
}

// The bytes of a standing.
pub fn size(s: Standing) -> usize
    ensures { (result ≡ length (standing_bytes s)) × (result ≤ 51) }
{
    total(layout::parts(s))
}

// Writes a standing over the front of `out` and says how many bytes it has; or 16, and nothing is written. Each field
// goes into the part that starts after the field before it.
pub fn write(s: Standing, out: &mut [u8]) -> Result<usize, Refusal>
    ensures { (result ≡ written_of s (length out.old))
        × (out.new ≡ over (standing_bytes s) out.old) }
{
    let parts = layout::parts(s);
    if out.len() < total(parts) {
        return Err(Refusal::Lent);
    }
    let mut at: usize = 0;
    for f in parts {
        at += field(&mut out[at..], f);
    }
    Ok(at)
}
