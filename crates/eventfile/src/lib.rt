// Event files: settings and records, from lent bytes.
#![tactic(auto)]

ghost use Rattle.std.specs.Prelude.{◌≡◌};
ghost use Rattle.eventfile.specs.File.{settings_of, is_stray, front_of, parse_of};
ghost use Rattle.eventfile.specs.Writer.{RecordsReadBack, FilesReadBack};

use crate::places::*;
use crate::types::*;
use base::types::Refusal;
use octets::get;
use rules::types::Settings;

mod places;
pub mod types;

// The four settings that a file begins with; 0 for one that is not whole.
pub fn settings_from(s: &[u8]) -> Settings
    ensures { result ≡ settings_of s.now }
{
    Settings {
        cap: get(s, 0, 8),
        gap: get(s, 8, 8),
        window: get(s, 16, 8),
        horizon: get(s, 24, 8),
    }
}

// Whether a bit of the map stands that the kind has not.
fn is_stray(m: u8, k: u8) -> bool
    ensures { result ≡ is_stray m k }
{
    // Not by `matches!`: tried, and `returns` did not close over the joins of its six values.
    let now = (k == 2) | ((k == 3) | ((k == 4) | ((k == 5) | ((k == 8) | ((k == 9) | (k == 10))))));
    let span = (k == 2) | ((k == 5) | ((k == 9) | (k == 15)));
    let id = (k == 2) | ((k == 3) | (k == 8));
    let len = (k == 1) | ((k == 2) | ((k == 7) | (k == 10)));
    let acked = k == 3;
    let flags = (k == 1) | ((k == 4) | (k == 6));
    (!now & (m / 1 % 2 == 1))
        | ((!span & (m / 2 % 2 == 1))
            | ((!id & (m / 4 % 2 == 1))
                | ((!len & (m / 8 % 2 == 1))
                    | ((!acked & (m / 16 % 2 == 1))
                        | ((!flags & (m / 32 % 2 == 1))
                            | ((m / 64 % 2 == 1) | (m / 128 % 2 == 1)))))))
}

// The record that the bytes begin with; an event comes with the bytes of its record.
fn front(s: &[u8]) -> Parse
    ensures { result ≡ front_of s.now }
{
    if s.is_empty() {
        return Parse::End;
    }
    let map = byte_at(s, 0);
    let kind = byte_at(s, 1);
    let at = laid_out(map);
    if s.len() < at.size {
        return Parse::Refused(Refusal::Cut, kind);
    }
    let kindless = (kind < 1) | (15 < kind);
    let stray = is_stray(map, kind);
    if kindless {
        return Parse::Refused(Refusal::Kind, kind);
    }
    if stray {
        return Parse::Refused(Refusal::Map, kind);
    }
    Parse::Event(event_of(s, map, kind), at.size)
}

// The record at a place of a file.
pub fn record_at(s: &[u8], at: usize) -> Parse
    ensures { result ≡ parse_of s.now at }
{
    if s.len() <= at {
        return Parse::End;
    }
    match front(&s[at..]) {
        Parse::Event(e, size) => Parse::Event(e, at + size),
        other => other,
    }
}

// The writer's law: what was written is read back, one record among any bytes and a whole file.
pub fn reads_back()
    ensures { RecordsReadBack × FilesReadBack }
{}
