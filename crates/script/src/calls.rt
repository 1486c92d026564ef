// The calls of a script, by their numbers, which are those of the host's bytes.
ghost use Rattle.std.specs.Prelude.{◌≡◌};
ghost use Rattle.script.specs.Calls.{low32, is_odd, sent_of, probe_call, line_call, size_call, seek_call, stop_call};
ghost use Rattle.script.specs.Calls.{time_call, read_call, score_call, count_call, ref_call, high_call, call_of};

use crate::answers::*;
use crate::types::*;
use live::types::Liveness;
use ring::types::Sent;

// The lowest 32 bits of a number.
fn low32(x: u64) -> u32
    ensures { result ≡ low32 x }
{
    (x % 0x1_0000_0000) as u32
}

// Whether a number is odd: a flag.
fn odd(x: u64) -> bool
    ensures { result ≡ is_odd x }
{
    x % 2 == 1
}

// The probe that a call names for `lapse`.
fn sent(c: Call) -> Sent
    ensures { result ≡ sent_of c }
{
    Sent {
        at: c.b,
        due: c.c,
        probe_id: low32(c.a),
        len: (c.d % 65536) as u16,
        used: true,
    }
}

// Calls 0 to 4: identifiers and probes.
#[tactic(auto, unfolding(crate::specs::Calls::probe_call))]
fn probe_call(path: Liveness, c: Call) -> Called
    ensures { result ≡ probe_call path c }
{
    match c.op {
        0 => give(Liveness::new()),
        1 => {
            let t = path.take_id(low32(c.a));
            tell(t.path, u64::from(t.id))
        }
        2 => of_outcome(path.send(c.a, c.b, low32(c.c), low32(c.d))),
        3 => of_outcome(path.answer(low32(c.a))),
        _ => of_outcome(path.expire(c.a, odd(c.b), c.c)),
    }
}

// Calls 5 to 9: the late list and the state.
#[tactic(auto, unfolding(crate::specs::Calls::line_call))]
fn line_call(path: Liveness, c: Call) -> Called
    ensures { result ≡ line_call path c }
{
    match c.op {
        5 => give(path.lapse(sent(c))),
        6 => tell(path, u64::from(path.room(c.a))),
        7 => give(path.fresh()),
        8 => give(path.thaw()),
        _ => give(path.clear()),
    }
}

// Calls 10 to 14: sizes, samples and ETX.
#[tactic(auto, unfolding(crate::specs::Calls::size_call))]
fn size_call(path: Liveness, c: Call) -> Called
    ensures { result ≡ size_call path c }
{
    match c.op {
        10 => of_answer(path, path.size(low32(c.a))),
        11 => of_outcome(path.sample(c.a, c.b, c.c, c.d)),
        12 => give(path.fold(odd(c.a))),
        13 => of_outcome(path.prove(low32(c.a))),
        _ => of_answer(path, path.seek_size(low32(c.a), c.b)),
    }
}

// Calls 15 to 19: the size search.
#[tactic(auto, unfolding(crate::specs::Calls::seek_call))]
fn seek_call(path: Liveness, c: Call) -> Called
    ensures { result ≡ seek_call path c }
{
    match c.op {
        15 => of_outcome(path.seek_send(c.a, low32(c.b), low32(c.c))),
        16 => of_outcome(path.seek_ring(c.a, c.b, c.c, low32(c.d), low32(c.e))),
        17 => of_outcome(path.seek_answer(low32(c.a), c.b)),
        18 => of_outcome(path.seek_proved(low32(c.a), low32(c.b), c.c)),
        _ => of_outcome(path.seek_judge(c.a, c.b, c.c)),
    }
}

// Calls 20 to 24: the stop and the timeout.
#[tactic(auto, unfolding(crate::specs::Calls::stop_call))]
fn stop_call(path: Liveness, c: Call) -> Called
    ensures { result ≡ stop_call path c }
{
    match c.op {
        20 => give(path.halt(c.a, odd(c.b))),
        21 => give(path.spend(c.a)),
        22 => give(path.owe()),
        23 => give(path.rebase(c.a, odd(c.b))),
        _ => of_answer(path, path.timeout(c.a, c.b)),
    }
}

// Calls 25 to 30: frames received, and the stop as it can be read.
#[tactic(auto, unfolding(crate::specs::Calls::time_call))]
fn time_call(path: Liveness, c: Call) -> Called
    ensures { result ≡ time_call path c }
{
    match c.op {
        25 => of_outcome(path.heard(low32(c.a), c.b)),
        26 => give(path.carried(c.a)),
        27 => of_outcome(path.shed(low32(c.a))),
        28 => tell(path, u64::from(path.stopped())),
        29 => tell_maybe(path, path.held()),
        _ => tell_maybe(path, path.recheck()),
    }
}

// Calls 31 to 36: what can be read off ring and round trips.
#[tactic(auto, unfolding(crate::specs::Calls::read_call))]
fn read_call(path: Liveness, c: Call) -> Called
    ensures { result ≡ read_call path c }
{
    match c.op {
        31 => tell(path, path.outstanding() as u64),
        32 => tell(path, path.samples() as u64),
        33 => tell_maybe(path, path.min_rtt()),
        34 => tell_maybe(path, path.max_rtt()),
        35 => tell_maybe(path, path.base_rtt()),
        _ => tell_maybe(path, path.earliest_due()),
    }
}

// Calls 37 to 42: the scores, and what they are made of.
#[tactic(auto, unfolding(crate::specs::Calls::score_call))]
fn score_call(path: Liveness, c: Call) -> Called
    ensures { result ≡ score_call path c }
{
    match c.op {
        37 => tell_score(path, scores::score(path)),
        38 => tell_score(path, scores::steady(path)),
        39 => tell(path, u64::from(path.misses())),
        40 => tell_maybe(path, path.rtt()),
        41 => tell(path, total::etx_bits(path.etx())),
        _ => tell_maybe(path, path.mtu().map(u64::from)),
    }
}

// Calls 43 to 48: the counts, the clocks and whether an answer matches.
#[tactic(auto, unfolding(crate::specs::Calls::count_call))]
fn count_call(path: Liveness, c: Call) -> Called
    ensures { result ≡ count_call path c }
{
    match c.op {
        43 => tell(path, u64::from(path.frames())),
        44 => tell(path, u64::from(path.bytes())),
        45 => tell_maybe(path, path.heard_at()),
        46 => tell_maybe(path, path.data_at()),
        47 => tell_maybe(path, path.quiet()),
        _ => of_matching(path.answer(low32(c.a))),
    }
}

// Calls 49 and 50: a send and an answer through a reference to the path; any other is refused as 15.
#[tactic(auto, unfolding(crate::specs::Calls::ref_call))]
fn ref_call(path: Liveness, c: Call) -> Called
    ensures { result ≡ ref_call path c }
{
    match c.op {
        49 => of_outcome(live_ref::send_in(path, c.a, c.b, low32(c.c), low32(c.d))),
        50 => of_outcome(live_ref::answer_in(path, low32(c.a))),
        _ => no_kind(path),
    }
}

// Calls 20 and up.
#[tactic(auto, unfolding(crate::specs::Calls::high_call))]
fn high_call(path: Liveness, c: Call) -> Called
    ensures { result ≡ high_call path c }
{
    if c.op < 25 {
        return stop_call(path, c);
    }
    if c.op < 31 {
        return time_call(path, c);
    }
    if c.op < 37 {
        return read_call(path, c);
    }
    if c.op < 43 {
        return score_call(path, c);
    }
    if c.op < 49 {
        return count_call(path, c);
    }
    ref_call(path, c)
}

// Carries out one call on a path.
#[tactic(auto, unfolding(crate::specs::Calls::call_of))]
pub fn call(path: Liveness, c: Call) -> Called
    ensures { result ≡ call_of path c }
{
    if c.op < 5 {
        return probe_call(path, c);
    }
    if c.op < 10 {
        return line_call(path, c);
    }
    if c.op < 15 {
        return size_call(path, c);
    }
    if c.op < 20 {
        return seek_call(path, c);
    }
    high_call(path, c)
}
