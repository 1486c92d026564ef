// The fields of a record, by its map.
ghost use Rattle.std.specs.Prelude.{◌≡◌, cond, ◌<◌, ◌≤◌, ◌^◌, get_or};
ghost use Rattle.octets.specs.Octets.{read_at};
ghost use Rattle.eventfile.specs.File.{layout_of, event_of};

use crate::types::Layout;
use octets::get;
use rules::types::Event;

// The byte at a place, 0 where there is none.
pub fn byte_at(s: &[u8], at: usize) -> u8
    ensures { result ≡ get_or s.now at 0 }
{
    s.get(at).copied().unwrap_or(0)
}

// The bytes of a field.
fn bytes_of(on: bool, width: usize) -> usize
    ensures { (result ≡ cond on width 0) × (result ≤ width) }
{
    if on { width } else { 0 }
}

// Where the fields begin, each after the one before it.
pub fn laid_out(map: u8) -> Layout
    ensures { result ≡ layout_of map }
{
    let span = 3 + bytes_of(map / 1 % 2 == 1, 8);
    let id = span + bytes_of(map / 2 % 2 == 1, 8);
    let len = id + bytes_of(map / 4 % 2 == 1, 4);
    let acked = len + bytes_of(map / 8 % 2 == 1, 2);
    let flags = acked + bytes_of(map / 16 % 2 == 1, 2);
    let size = flags + bytes_of(map / 32 % 2 == 1, 1);
    Layout {
        span,
        id,
        len,
        acked,
        flags,
        size,
    }
}

// A field, 0 where it is absent.
fn field(s: &[u8], on: bool, at: usize, width: usize) -> u64
    ensures { (result ≡ cond on (read_at at width s.now) 0) × (result < 256 ^ width) }
{
    if on { get(s, at, width) } else { 0 }
}

// The event of the record that the bytes begin with.
pub fn event_of(s: &[u8], map: u8, kind: u8) -> Event
    ensures { result ≡ event_of map kind s.now }
{
    let at = laid_out(map);
    Event {
        now: field(s, map / 1 % 2 == 1, 3, 8),
        span: field(s, map / 2 % 2 == 1, at.span, 8),
        id: field(s, map / 4 % 2 == 1, at.id, 4) as u32,
        len: field(s, map / 8 % 2 == 1, at.len, 2) as u32,
        acked: field(s, map / 16 % 2 == 1, at.acked, 2) as u32,
        kind,
        slot: byte_at(s, 2),
        flags: field(s, map / 32 % 2 == 1, at.flags, 1) as u8,
    }
}
