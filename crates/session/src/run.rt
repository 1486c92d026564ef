// The records that lie whole within lent bytes: an event and a line for each.
ghost use Rattle.std.specs.Prelude.{◌≡◌, ◌+◌, [], drop};
ghost use Rattle.lines.specs.Text.{line_of, written};
ghost use Rattle.peer.specs.Record.{record_in};
ghost use Rattle.session.specs.Sessions.{event_line, laid_at, stop_line, lines_in, ran_from};
ghost use Rattle.session.specs.Words.{call_at, stopped_at, Runs};

use crate::types::*;
use base::types::Refusal;
use eventfile::types::Parse;
use refusals::reply::{number_of, value_of};
use rows::places::ROWS;
use rules::types::*;
use select::types::PATH_MAX_PER_PEER;

// Writes a line behind the first `at` bytes of `out`, or nothing where it does not fit; gives the place after it.
fn lay(out: &mut [u8], at: usize, number: u64, kind: u64, refusal: u64, value: u64) -> usize
    ensures { (result ≡ at + written (line_of number kind refusal value) (drop at out.old))
        × (out.new ≡ laid_at at (line_of number kind refusal value) out.old) }
{
    if out.len() < at {
        return at;
    }
    at + lines::put_line(&mut out[at..], number, kind, refusal, value)
}

// The same with the line of an event.
fn lay_event(
    out: &mut [u8],
    at: usize,
    number: u64,
    e: Event,
    reply: Result<Reply, Refusal>,
) -> usize
    ensures { (result ≡ at + written (event_line number e reply) (drop at out.old))
        × (out.new ≡ laid_at at (event_line number e reply) out.old) }
{
    lay(
        out,
        at,
        number,
        u64::from(e.kind),
        number_of(reply),
        value_of(reply),
    )
}

// Where a run stands: the number of the next record, what is awaited, and the places.
fn call_at(number: u64, phase: Phase, place: usize, wrote: usize, full: bool) -> Call
    ensures { result ≡ call_at number phase place wrote full }
{
    Call {
        mark: Mark { number, phase },
        place,
        wrote,
        full,
    }
}

// Stops before what stands at a place and is no event, with `at` bytes written: a record that can't be read ends the
// session with its line, but one that is cut short waits for more bytes.
fn stop(number: u64, x: Parse, place: usize, out: &mut [u8], at: usize) -> Call
    ensures { (result ≡ stopped_at number x place out.old at)
        × (out.new ≡ laid_at at (stop_line x number) out.old) }
{
    let rest = call_at(number, Phase::Running, place, at, false);
    let Parse::Refused(why, kind) = x else {
        return rest;
    };
    let refusal = why.number();
    if refusal == 13 {
        return rest;
    }
    let end = lay(out, at, number, u64::from(kind), refusal, 0);
    call_at(number, Phase::Over, place, end, false)
}

// The records from a place on, at most one for each 84 bytes of `out`. An event changes the record in its lent words.
pub fn run(
    t: &[u64; 4],
    rec: &mut [[[u64; 4]; ROWS]; PATH_MAX_PER_PEER],
    number: u64,
    s: &[u8],
    place: usize,
    out: &mut [u8],
) -> Call
    ensures { Runs t.now t.now rec.old rec.new result
        out.old out.new
        (ran_from (lines_in out.old) s.now []
        (record_in t.now rec.old) number place) }
{
    let most = out.len() / 84;
    let mut n = number;
    let mut p = place;
    let mut at: usize = 0;
    for _i in 0..most {
        let x = eventfile::record_at(s, p);
        let Parse::Event(e, next) = x else {
            return stop(n, x, p, out, at);
        };
        let reply = peer::record::event(t, rec, e);
        at = lay_event(out, at, n, e, reply);
        n = n.wrapping_add(1);
        p = next;
    }
    call_at(n, Phase::Running, p, at, true)
}
