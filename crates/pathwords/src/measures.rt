// Rows and words of what a path measures: samples, spans, the ETX, the sizes, the traffic, the stop.
ghost use Rattle.std.specs.Prelude.{◌≡◌, ◌+◌, ◌*◌, ◌/◌, ◌%◌, ◌^◌, ◌≤◌};
ghost use Rattle.base.specs.Seq.{flag_of};
ghost use Rattle.base.specs.Missing.{tag};
ghost use Rattle.total.specs.Patterns.{etx_bits};
ghost use Rattle.cells.specs.Cells.{sample_in, span_in, etx_in, sizes_in, traffic_in};
ghost use Rattle.cells.specs.Code.{span_row, search_word, arrivals_row, count_word, stop_row, until_word};

use base::missing::*;
use base::types::*;
use cells::words::*;
use live::types::Traffic;
use rtt::types::*;
use seek::types::*;
use stop::types::*;
use total::{etx_bits, pick};

// The sample that half a row says.
pub fn sample_in(t: [u64; 4], last: bool, used: bool) -> Sample
    ensures { result ≡ sample_in t last used }
{
    Sample {
        at: pick(last, t[2], t[0]),
        rtt: pick(last, t[3], t[1]),
        used,
    }
}

// The span that a row says.
#[tactic(auto, unfolding(cells::specs::Cells::span_in))]
pub fn span_in(t: [u64; 4]) -> Span
    ensures { result ≡ span_in t }
{
    Span {
        from: t[0],
        to: t[1],
        rtt: t[2],
        used: t[3] != 0,
    }
}

// The row that says a span.
pub fn span_row(s: Span) -> [u64; 4]
    ensures { (result ≡ span_row s) × (span_in result ≡ s) }
{
    [s.from, s.to, s.rtt, u64::from(s.used)]
}

// The ETX that a word says: every pattern of a NaN is the one NaN.
#[tactic(auto, unfolding(cells::specs::Cells::etx_in))]
pub fn etx_in(w: u64) -> f64
    ensures { result ≡ etx_in w }
{
    total::float_of(w)
}

// The word that says an ETX.
pub fn etx_word(x: f64) -> u64
    ensures { (result ≡ etx_bits x) × (etx_in result ≡ x) }
{
    etx_bits(x)
}

// The sizes that words say.
#[tactic(auto, unfolding(cells::specs::Cells::sizes_in))]
pub fn sizes_in(tag: u64, when: u64, sent: u64, less: u64, most: u64) -> Sizes
    ensures { result ≡ sizes_in tag when sent less most }
{
    Sizes {
        seek: Seek {
            at: time_in(tag, when),
            probe_id: low(sent),
            len: short(sent / 0x1_0000_0000),
            lost: short(less),
        },
        proven: len_in(most),
    }
}

// The word that says the search's identifier and length.
pub fn search_word(s: Seek) -> u64
    ensures { (result ≡ search_word s) × (result % 2 ^ 32 ≡ s.probe_id) × (result / 2 ^ 32 % 65536 ≡ s.len) }
{
    u64::from(s.probe_id) + u64::from(s.len) * 0x1_0000_0000
}

// The traffic that a row and a word say.
#[tactic(auto, unfolding(cells::specs::Cells::traffic_in))]
pub fn traffic_in(t: [u64; 4], counts: u64) -> Traffic
    ensures { result ≡ traffic_in t counts }
{
    Traffic {
        heard_at: time_in(t[0], t[1]),
        data_at: time_in(t[2], t[3]),
        frames: low(counts),
        bytes: low(counts / 0x1_0000_0000),
    }
}

// The row that says when the last frame and the last session datagram came.
#[tactic(auto, unfolding(cells::specs::Code::arrivals_row))]
pub fn arrivals_row(s: Traffic) -> [u64; 4]
    ensures { result ≡ arrivals_row s }
{
    [
        tag(s.heard_at),
        s.heard_at.unwrap_or(0),
        tag(s.data_at),
        s.data_at.unwrap_or(0),
    ]
}

// The word that says frames and bytes.
pub fn count_word(s: Traffic) -> u64
    ensures { (result ≡ count_word s) × (result % 2 ^ 32 ≡ s.frames) × (result / 2 ^ 32 % 2 ^ 32 ≡ s.bytes) }
{
    u64::from(s.frames) + u64::from(s.bytes) * 0x1_0000_0000
}

// The mark of a stop, 2 if a slot is owed.
fn stop_mark(owed: bool) -> u64
    ensures { (result ≡ 1 + flag_of owed) × (result ≤ 2) }
{
    if owed { 2 } else { 1 }
}

// The mark of until.
fn until_mark(m: Option<u64>) -> u64
    ensures { (result ≡ 2 * tag m) × (result ≤ 2) }
{
    2 * tag(m)
}

// The row that says the stop, all 0 with none.
pub fn stop_row(m: Option<Stop>) -> [u64; 4]
    ensures { result ≡ stop_row m }
{
    let Some(s) = m else {
        return [0; 4];
    };
    [
        stop_mark(s.owed) + until_mark(s.until),
        s.free,
        s.gap,
        s.used,
    ]
}

// The word that says until, 0 with none.
#[tactic(auto, unfolding(cells::specs::Code::until_word))]
pub fn until_word(m: Option<Stop>) -> u64
    ensures { result ≡ until_word m }
{
    m.and_then(|s| s.until).unwrap_or(0)
}
