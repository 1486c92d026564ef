// The image of a path: everything that it keeps as 225 numbers, eight little-endian bytes each.
#![tactic(auto)]

pub mod parts;
pub mod words;

ghost use Rattle.std.specs.Prelude.{◌≡◌, length, leb};
ghost use Rattle.octets.specs.Octets.{over};
ghost use Rattle.image.specs.Image.{image_of};

use live::types::Liveness;
use parts::*;
use total::etx_bits;

// Writes the image over the first 1,800 of the lent bytes, or nothing where there are fewer; says whether it did.
pub fn write_image(out: &mut [u8], path: Liveness) -> bool
    ensures { (result ≡ leb 1800 (length out.old))
        × ((out.new ≡ over (image_of path) out.old) × (length (image_of path) ≡ 1800)) }
{
    if out.len() < 1800 {
        return false;
    }
    write_front(out, path);
    write_rtts(&mut out[752..], path.rtts);
    octets::put_words(&mut out[1792..], &[etx_bits(path.etx)]);
    true
}
