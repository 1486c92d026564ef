// An event in four words.
ghost use Rattle.std.specs.Prelude.{◌≡◌, ◌%◌, ◌<◌};
ghost use Rattle.cells.specs.Cells.{event_in};
ghost use Rattle.cells.specs.Code.{event_row};

use cells::words::*;
use rules::types::Event;

// A number of 8 bits.
fn octet(x: u64) -> u8
    ensures { result ≡ x % 256 }
{
    (x % 256) as u8
}

// The event that four words say.
#[tactic(auto, unfolding(cells::specs::Cells::event_in))]
pub fn event_in(t: [u64; 4]) -> Event
    ensures { result ≡ event_in t }
{
    let sizes = t[2];
    let marks = t[3];
    Event {
        now: t[0],
        span: t[1],
        id: low(sizes),
        len: low(sizes / 0x1_0000_0000),
        acked: low(marks),
        kind: octet(marks / 0x1_0000_0000),
        slot: octet(marks / 0x100_0000_0000),
        flags: octet(marks / 0x1_0000_0000_0000),
    }
}

// The words that say an event.
pub fn event_row(e: Event) -> [u64; 4]
    ensures { (result ≡ event_row e) × (event_in result ≡ e) }
{
    let kind = u64::from(e.kind);
    let slot = u64::from(e.slot);
    let flags = u64::from(e.flags);
    [
        e.now,
        e.span,
        u64::from(e.id) + u64::from(e.len) * 0x1_0000_0000,
        u64::from(e.acked)
            + kind * 0x1_0000_0000
            + slot * 0x100_0000_0000
            + flags * 0x1_0000_0000_0000,
    ]
}
