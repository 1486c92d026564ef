// The standing of a slot's path in rows, written into lent bytes.
ghost use Rattle.std.specs.Prelude.{◌≡◌, map, length};
ghost use Rattle.standing.specs.Standing.{standing_of, slot_written, slot_out};
ghost use Rattle.rows.specs.View.{path_in, slot_in};

use base::types::*;
use ring::types::Ids;
use rowmeasures::*;
use rows::places::*;
use rows::probes::*;
use rows::whole::*;
use seek::types::Sizes;
use select::types::PATH_MAX_PER_PEER;
use standing::types::*;
use trips::*;

// What is told of the slot's path.
pub fn told(p: &[[u64; 4]; ROWS]) -> Standing
    ensures { result ≡ standing_of (path_in p.now) }
{
    Standing {
        last: trip(p),
        least: min_rtt(p),
        base: base_rtt(p),
        quiet: quiet(p),
        etx: etx(p),
        answered: ids(p).answered,
        misses: misses(p),
        proven: sizes(p).proven,
    }
}

// Writes the standing of a slot's path; 1 for a slot above 7, 2 for an empty one, then 16; a refusal writes nothing.
pub fn standing(
    rec: &[[[u64; 4]; ROWS]; PATH_MAX_PER_PEER],
    slot: u8,
    out: &mut [u8],
) -> Result<usize, Refusal>
    ensures { (result ≡ slot_written (map slot_in rec.now) slot (length out.old))
        × (out.new ≡ slot_out (map slot_in rec.now) slot out.old) }
{
    if 7 < slot {
        return Err(Refusal::Slot);
    }
    let i = slot as usize;
    if used(&rec[i]) {
        return standing::write(told(&rec[i]), out);
    }
    Err(Refusal::Empty)
}
