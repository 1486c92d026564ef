// The events of a file on a record in words: a pass that writes nothing, and one that writes the answers.
ghost use Rattle.std.specs.Prelude.{◌≡◌, ◌/◌, length, take};
ghost use Rattle.octets.specs.Octets.{flat, over};
ghost use Rattle.rules.specs.Step.{trace};
ghost use Rattle.eventfile.specs.File.{events_of};
ghost use Rattle.peer.specs.Record.{record_in};
ghost use Rattle.eventrun.specs.Runs.{pass_of, entry_bytes, Leaves};

use crate::types::*;
use eventfile::types::Parse;
use labels::events::event_row;
use peer::record::tell;
use rows::places::ROWS;
use rules::types::*;
use select::types::PATH_MAX_PER_PEER;

// An answer in one word has its value below this, and its number above.
const WORD_VALUES: u64 = 0x1_0000_0000;

// Runs the events and writes nothing but the record's words. An event goes by its words, as over C: one function does
// events in the C library, and is no slower for the other's sake.
pub fn scan(t: &[u64; 4], rec: &mut [[[u64; 4]; ROWS]; PATH_MAX_PER_PEER], file: &[u8]) -> Scan
    ensures { (result ≡ pass_of file.now)
        × Leaves t.now rec.old rec.new (events_of file.now) }
{
    let mut count: usize = 0;
    let mut at: usize = 32;
    'records: loop {
        match eventfile::record_at(file, at) {
            Parse::End => return Scan { count, end: Ok(()) },
            Parse::Refused(why, kind) => {
                return Scan {
                    count,
                    end: Err(why),
                };
            }
            Parse::Event(e, next) => {
                tell(t, rec, &event_row(e));
                count += 1;
                at = next;
            }
        }
    }
}

// Runs the events again and writes their answers, sixteen bytes each, over the front of `out`: as many as fit.
pub fn write_answers(
    t: &[u64; 4],
    rec: &mut [[[u64; 4]; ROWS]; PATH_MAX_PER_PEER],
    file: &[u8],
    out: &mut [u8],
)
    ensures { let es = take (length out.old / 16) (events_of file.now) in
        (out.new ≡ over
        (flat entry_bytes (trace (record_in t.now rec.old) es)) out.old)
        × Leaves t.now rec.old rec.new es }
{
    let mut from: usize = 32;
    let mut at: usize = 0;
    while 16 <= out.len() - at {
        let Parse::Event(e, next) = eventfile::record_at(file, from) else {
            return;
        };
        let w = tell(t, rec, &event_row(e));
        octets::put_words(&mut out[at..], &[w / WORD_VALUES, w % WORD_VALUES]);
        from = next;
        at += 16;
    }
}
