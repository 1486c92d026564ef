// The events of a file on a fresh record: their answers and the standings of the paths, written into lent bytes. The
// record lies in words of the call itself.
#![tactic(auto)]

ghost use Rattle.std.specs.Prelude.{◌≡◌, ◌+◌, ◌*◌, leb, length};
ghost use Rattle.eventfile.specs.Claim.{FileDemand};
ghost use Rattle.eventrun.specs.Runs.{plan_of, Plans, file_written, out_of};

use base::types::Refusal;
use rows::places::ROWS;
use select::types::PATH_MAX_PER_PEER;
use types::*;

pub mod passes;
pub mod slots;
pub mod types;

// What a file's events come to, with the words of the record after them; 13 or 6 where no record is made.
fn plan(t: &mut [u64; 4], rec: &mut [[[u64; 4]; ROWS]; PATH_MAX_PER_PEER], file: &[u8]) -> Scan
    ensures { (result ≡ plan_of file.now)
        × Plans file.now t.old t.new rec.old rec.new }
{
    if file.len() < 32 {
        return Scan {
            count: 0,
            end: Err(Refusal::Cut),
        };
    }
    let made = peer::record::new(t, rec, eventfile::settings_from(file));
    if refusals::reply::number_of(made) == 0 {
        return passes::scan(t, rec, file);
    }
    Scan {
        count: 0,
        end: Err(Refusal::Duration),
    }
}

// Whether so many answers and the standings behind them fit into the lent bytes.
fn fits(count: usize, told: usize, lent: usize) -> bool
    ensures { result ≡ leb (16 * count + told) lent }
{
    told <= lent && count <= (lent - told) / 16
}

// Runs a file's events and writes each answer and, behind them, the standings of the open slots; says how many bytes.
// 13, 6, 15, 14 and 16 write nothing. What demand 3 claims holds of these answers and of the record that they leave.
pub fn run_events(file: &[u8], out: &mut [u8]) -> Result<usize, Refusal>
    ensures { (result ≡ file_written file.now (length out.old))
        × ((out.new ≡ out_of file.now out.old) × FileDemand file.now) }
{
    let word = [0u64; 4];
    let path = [word; ROWS];
    let mut t = [0u64; 4];
    let mut rec = [path; PATH_MAX_PER_PEER];
    let p = plan(&mut t, &mut rec, file);
    p.end?;
    let told = slots::slots_size(&rec);
    if !fits(p.count, told, out.len()) {
        return Err(Refusal::Lent);
    }
    let _ = peer::record::new(&mut t, &mut rec, eventfile::settings_from(file));
    passes::write_answers(&t, &mut rec, file, out);
    let at = 16 * p.count;
    slots::write_slots(&rec, &mut out[at..]);
    Ok(at + told)
}
