// A whole file in lent bytes: the claim about every list of events reaches the code.
ghost use Rattle.std.specs.Prelude.{◌≡◌};
ghost use Rattle.octets.specs.Octets.{over};
ghost use Rattle.eventfile.specs.Claim.{FileDemand};
ghost use Rattle.session.specs.Whole.{file_text, file_reply};

use crate::calls::{begin, finish, step};
use base::types::Refusal;
use rows::places::ROWS;
use select::types::PATH_MAX_PER_PEER;

// Writes the lines of a file to the front of `out`, or nothing where `out` has no room for a line of 84 bytes for each
// three bytes of the file and one more; demand 3 holds of the file's events and these answers.
pub fn lines_of_file(s: &[u8], out: &mut [u8]) -> Result<usize, Refusal>
    ensures { (result ≡ file_reply s.now out.old)
        × (out.new ≡ over (file_text s.now out.old) out.old)
        × FileDemand s.now }
{
    if out.len() / 84 <= s.len() / 3 {
        return Err(Refusal::Lent);
    }
    let word = [0u64; 4];
    let path = [word; ROWS];
    let mut t = [0u64; 4];
    let mut rec = [path; PATH_MAX_PER_PEER];
    let mark = begin(&mut t, &mut rec);
    let r = step(&mut t, &mut rec, mark, s, out);
    let k = finish(r.mark, &s[r.place..], &mut out[r.wrote..]);
    Ok(r.wrote + k)
}
