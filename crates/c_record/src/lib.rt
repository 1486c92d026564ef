// A peer record that a C caller keeps: four words of settings and eight slots of rows, lent to each call. Any words
// are read by the same rules; nothing is required of them.
#![tactic(auto)]

ghost use Rattle.std.specs.Prelude.{◌≡◌, cond, map, length};
ghost use Rattle.rules.specs.Step.{allowed, fresh_record, record_of};
ghost use Rattle.eventfile.specs.File.{parse_of};
ghost use Rattle.standing.specs.Standing.{slot_written, slot_out};
ghost use Rattle.cells.specs.Code.{settings_row};
ghost use Rattle.rows.specs.View.{slot_in};
ghost use Rattle.peer.specs.Record.{record_in, record_rows};
ghost use Rattle.c_record.specs.Record.{settings_with, answer_reply, none_taken, TakenHere, written_reply};
ghost use Rattle.c_record.specs.Record.{event_with, split_reply, StepsHere, taken_by};

use base::types::Refusal;
use c_reply::*;
use eventfile::types::Parse;
use rows::places::ROWS;
use rules::types::{Event, Settings};

// An answer in one word has its value below this, and its number above.
const WORD_VALUES: u64 = 0x1_0000_0000;

// A refusal number, 0 if accepted, the value, 0 if refused, and how many bytes the event's record has, 0 where none
// could be read.
#[repr(C)]
#[derive(Clone, Copy)]
pub struct Taken {
    pub number: u64,
    pub value: u64,
    pub read: u64,
}

// An answer of the record, as a number and a value.
fn reply_of(reply: Result<rules::types::Reply, Refusal>) -> Reply
    ensures { result ≡ answer_reply reply }
{
    Reply {
        number: refusals::reply::number_of(reply),
        value: refusals::reply::value_of(reply),
    }
}

// An answer in one word, as a number and a value.
fn split(w: u64) -> Reply
    ensures { result ≡ split_reply w }
{
    Reply {
        number: w / WORD_VALUES,
        value: w % WORD_VALUES,
    }
}

// Makes a record of eight empty slots in the lent words; 6 for a setting of 2^62 or more, and nothing is written.
pub fn new(
    settings: &mut [u64; 4],
    slots: &mut [[[u64; 4]; ROWS]; 8],
    cap: u64,
    gap: u64,
    window: u64,
    horizon: u64,
) -> Reply
    ensures { let s = settings_with cap gap window horizon in (result ≡ answer_reply (record_of s).reply)
        × (settings.new ≡ cond (allowed s) (settings_row s) settings.old)
        × (slots.new ≡ cond (allowed s) (record_rows (fresh_record s)) slots.old) }
{
    let s = Settings {
        cap,
        gap,
        window,
        horizon,
    };
    reply_of(peer::record::new(settings, slots, s))
}

// One event: the answer, and the record after it in the same words. A refused event leaves every word.
pub fn event(
    settings: &[u64; 4],
    slots: &mut [[[u64; 4]; ROWS]; 8],
    kind: u8,
    slot: u8,
    flags: u8,
    at: u64,
    span: u64,
    id: u32,
    len: u32,
    acked: u32,
) -> Reply
    ensures { StepsHere settings.now slots.old slots.new result
        (event_with kind slot flags at span id len acked) }
{
    let e = Event {
        now: at,
        span,
        id,
        len,
        acked,
        kind,
        slot,
        flags,
    };
    let words = labels::events::event_row(e);
    split(peer::record::tell(settings, slots, &words))
}

// No event could be read.
fn none_taken(why: Refusal) -> Taken
    ensures { result ≡ none_taken why }
{
    Taken {
        number: why.number(),
        value: 0,
        read: 0,
    }
}

// The event whose record the bytes begin with, and how many bytes that record has: 13 for too few of them or none, 15,
// 14; on these no byte counts as read and no word changes.
pub fn bytes(settings: &[u64; 4], slots: &mut [[[u64; 4]; ROWS]; 8], event: &[u8]) -> Taken
    ensures { let found = parse_of event.now 0 in
        (result ≡ taken_by (record_in settings.now slots.old) found)
        × TakenHere settings.now slots.old slots.new found }
{
    match eventfile::record_at(event, 0) {
        Parse::End => none_taken(Refusal::Cut),
        Parse::Refused(why, kind) => none_taken(why),
        Parse::Event(e, next) => {
            let words = labels::events::event_row(e);
            let w = peer::record::tell(settings, slots, &words);
            Taken {
                number: w / WORD_VALUES,
                value: w % WORD_VALUES,
                read: next as u64,
            }
        }
    }
}

// The bytes written, or the refusal.
pub fn of_written(answer: Result<usize, Refusal>) -> Reply
    ensures { result ≡ written_reply answer }
{
    Reply::from(answer.map(|n| n as u64))
}

// Writes the standing of a slot's path; the value is the count of bytes. 1 for a slot above 7, 2 for an empty one, 16
// for too few lent bytes; a refusal writes nothing.
pub fn standing(slots: &[[[u64; 4]; ROWS]; 8], slot: u8, out: &mut [u8]) -> Reply
    ensures { let held = map slot_in slots.now in
        (result ≡ written_reply (slot_written held slot (length out.old)))
        × (out.new ≡ slot_out held slot out.old) }
{
    of_written(queries::standings::standing(slots, slot, out))
}
