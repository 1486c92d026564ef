// A peer record that the caller keeps: four words of settings and eight slots of rows, lent to each call. Any words
// are read by the same rules; nothing is required of them.
ghost use Rattle.std.specs.Prelude.{◌≡◌, cond, map, length};
ghost use Rattle.rules.specs.Step.{allowed, fresh_record, record_of};
ghost use Rattle.eventfile.specs.File.{parse_of};
ghost use Rattle.standing.specs.Standing.{slot_written, slot_out};
ghost use Rattle.cells.specs.Cells.{event_in};
ghost use Rattle.cells.specs.Code.{settings_row};
ghost use Rattle.rows.specs.View.{slot_in};
ghost use Rattle.peer.specs.Record.{record_in, record_rows, Tells};
ghost use Rattle.c_record.specs.Record.{kept_bytes, settings_with, answer_reply, TakenHere, event_with, StepsHere, taken_by};
ghost use Rattle.c_record.specs.Record.{written_reply};

use c_record::Taken;
use c_reply::Reply;
use rows::places::ROWS;

// The bytes of a record.
#[unsafe(no_mangle)]
pub extern "C" fn hess_record_size() -> u64
    ensures { result ≡ kept_bytes }
{
    8 * (4 + 8 * 4 * (ROWS as u64))
}

// Makes a record of eight empty slots in the lent words; 6 for a setting of 2^62 or more, and nothing is written.
#[unsafe(no_mangle)]
pub extern "C" fn hess_record_new(
    settings: &mut [u64; 4],
    slots: &mut [[[u64; 4]; ROWS]; 8],
    cap: u64,
    gap: u64,
    window: u64,
    horizon: u64,
) -> Reply
    ensures { let s = settings_with cap gap window horizon in (result ≡ answer_reply (record_of s).reply)
        × (settings.new ≡ cond (allowed s) (settings_row s) settings.old)
        × (slots.new ≡ cond (allowed s) (record_rows (fresh_record s)) slots.old) }
{
    c_record::new(settings, slots, cap, gap, window, horizon)
}

// One event: the answer, and the record after it in the same words. A refused event leaves every word.
#[unsafe(no_mangle)]
pub extern "C" fn hess_record_event(
    settings: &[u64; 4],
    slots: &mut [[[u64; 4]; ROWS]; 8],
    kind: u8,
    slot: u8,
    flags: u8,
    at: u64,
    span: u64,
    id: u32,
    len: u32,
    acked: u32,
) -> Reply
    ensures { StepsHere settings.now slots.old slots.new result
        (event_with kind slot flags at span id len acked) }
{
    c_record::event(settings, slots, kind, slot, flags, at, span, id, len, acked)
}

// The same, by the four words of an event; the answer is one word too: the refusal number in its upper half, the value
// in its lower.
#[unsafe(no_mangle)]
pub extern "C" fn hess_record_words(
    settings: &[u64; 4],
    slots: &mut [[[u64; 4]; ROWS]; 8],
    event: &[u64; 4],
) -> u64
    ensures { Tells settings.now slots.old slots.new result
        (event_in event.now) }
{
    peer::record::tell(settings, slots, event)
}

// The event whose record the bytes begin with, and how many bytes that record has: 13 for too few of them or none, 15,
// 14; on these no byte counts as read and no word changes.
#[unsafe(no_mangle)]
pub extern "C" fn hess_record_bytes(
    settings: &[u64; 4],
    slots: &mut [[[u64; 4]; ROWS]; 8],
    event: &[u8],
) -> Taken
    ensures { let found = parse_of event.now 0 in
        (result ≡ taken_by (record_in settings.now slots.old) found)
        × TakenHere settings.now slots.old slots.new found }
{
    c_record::bytes(settings, slots, event)
}

// Writes the standing of a slot's path; the value is the count of bytes. 1 for a slot above 7, 2 for an empty one, 16
// for too few lent bytes; a refusal writes nothing.
#[unsafe(no_mangle)]
pub extern "C" fn hess_record_standing(
    slots: &[[[u64; 4]; ROWS]; 8],
    slot: u8,
    out: &mut [u8],
) -> Reply
    ensures { let held = map slot_in slots.now in
        (result ≡ written_reply (slot_written held slot (length out.old)))
        × (out.new ≡ slot_out held slot out.old) }
{
    c_record::standing(slots, slot, out)
}
