// A session over the bytes of an event file, its record in lent words: begun, called on the bytes held, and finished.
ghost use Rattle.std.specs.Prelude.{◌≡◌};
ghost use Rattle.lines.specs.Text.{written};
ghost use Rattle.octets.specs.Octets.{over};
ghost use Rattle.session.specs.Sessions.{lines_in, ran_of, last_in};
ghost use Rattle.session.specs.Words.{session_in, stayed_at, Begins, Runs};

use base::types::Refusal;
use eventfile::types::Parse;
use refusals::reply::number_of;
use rows::places::ROWS;
use rules::types::*;
use select::types::PATH_MAX_PER_PEER;
use session::run::run;
use session::types::*;

// A session before its first byte: the words become those of a new record, whatever they were.
pub fn begin(t: &mut [u64; 4], rec: &mut [[[u64; 4]; ROWS]; PATH_MAX_PER_PEER]) -> Mark
    ensures { Begins t.new rec.new result }
{
    let settings = Settings {
        cap: 0,
        gap: 0,
        window: 0,
        horizon: 0,
    };
    let _ = peer::record::new(t, rec, settings);
    Mark {
        number: 1,
        phase: Phase::Settings,
    }
}

// A call that reads and writes nothing.
fn stay(mark: Mark, full: bool) -> Call
    ensures { result ≡ stayed_at mark full }
{
    Call {
        mark,
        place: 0,
        wrote: 0,
        full,
    }
}

// One call on the bytes held: the settings, once they are there, then every record that lies whole within the bytes,
// with at most a line for each 84 bytes of `out`.
pub fn step(
    t: &mut [u64; 4],
    rec: &mut [[[u64; 4]; ROWS]; PATH_MAX_PER_PEER],
    mark: Mark,
    s: &[u8],
    out: &mut [u8],
) -> Call
    ensures { Runs t.old t.new rec.old rec.new result
        out.old out.new
        (ran_of (lines_in out.old) (session_in t.old rec.old mark) s.now) }
{
    if out.len() < 84 {
        return stay(mark, true);
    }
    match mark.phase {
        Phase::Settings => {
            if s.len() < 32 {
                return stay(mark, false);
            }
            let reply = peer::record::new(t, rec, eventfile::settings_from(s));
            if number_of(reply) == 0 {
                return run(t, rec, 1, s, 32, out);
            }
            let wrote = lines::put_line(out, 0, 0, 6, 0);
            Call {
                mark: Mark {
                    number: mark.number,
                    phase: Phase::Over,
                },
                place: 0,
                wrote,
                full: false,
            }
        }
        Phase::Running => run(t, rec, mark.number, s, 0, out),
        Phase::Over => stay(mark, false),
    }
}

// The end of the input, with these bytes left: writes the last line, if there is one; gives the bytes written.
pub fn finish(mark: Mark, s: &[u8], out: &mut [u8]) -> usize
    ensures { (result ≡ written (last_in mark.phase mark.number s.now) out.old)
        × (out.new ≡ over (last_in mark.phase mark.number s.now) out.old) }
{
    match mark.phase {
        Phase::Settings => lines::put_line(out, 0, 0, 13, 0),
        Phase::Running => {
            let Parse::Refused(why, kind) = eventfile::record_at(s, 0) else {
                return 0;
            };
            lines::put_line(out, mark.number, u64::from(kind), why.number(), 0)
        }
        Phase::Over => 0,
    }
}
