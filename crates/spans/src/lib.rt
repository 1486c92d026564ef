// The 8 spans of the horizon, and one more round trip in all that is measured.
#![tactic(auto)]

ghost use Rattle.std.specs.Prelude.{◌≡◌};
ghost use Rattle.base.specs.Passes.{overtakes, catches};
ghost use Rattle.rtt.specs.Spans.{is_past, kept_span, kept_spans, is_span, span_earlier, span_later, joins_of, joined_of, opened_of, span_of, base_rtt};

use rtt::types::{SPANS, Span};

pub mod rtts;

// Whether a span's latest sample is older than the horizon.
pub fn is_past(s: Span, now: u64, horizon: u64) -> bool
    ensures { result ≡ is_past now horizon s }
{
    s.used & (horizon < base::time::elapsed(now, s.to))
}

// A place as the horizon leaves it.
fn kept(s: Span, now: u64, horizon: u64) -> Span
    ensures { result ≡ kept_span now horizon s }
{
    if is_past(s, now, horizon) {
        Span::none()
    } else {
        s
    }
}

// Drops the spans past the horizon.
fn drop_past(spans: &mut [Span; SPANS], now: u64, horizon: u64)
    ensures { spans.new ≡ kept_spans now horizon spans.old }
{
    for i in 0..SPANS {
        spans[i] = kept(spans[i], now, horizon);
    }
}

// Whether a span takes the place of the oldest found so far: of equals the first stays.
pub fn older(s: Span, oldest: Span) -> bool
    ensures { result ≡ overtakes is_span span_earlier s oldest }
{
    rtt::marked::older(s, oldest)
}

// Whether a span takes the place of the newest found so far: of equals the last does.
pub fn newer(s: Span, newest: Span) -> bool
    ensures { result ≡ catches is_span span_later s newest }
{
    rtt::marked::newer(s, newest)
}

// Whether a sample at `now` is within the width of the span.
pub fn joins(s: Span, now: u64, horizon: u64) -> bool
    ensures { result ≡ joins_of now horizon s }
{
    s.used & (base::time::elapsed(now, s.from) < horizon / 6)
}

// The span with one more sample.
pub fn joined(s: Span, now: u64, rtt: u64) -> Span
    ensures { result ≡ joined_of now rtt s }
{
    Span {
        to: now,
        rtt: s.rtt.min(rtt),
        used: true,
        ..s
    }
}

// The spans with a new one for a sample at `now`: it takes the first gap, else the oldest's place.
fn opened(spans: [Span; SPANS], now: u64, rtt: u64) -> [Span; SPANS]
    ensures { result ≡ opened_of now rtt spans }
{
    let mut out = spans;
    out[rtt::marked::place(&spans)] = Span {
        from: now,
        to: now,
        rtt,
        used: true,
    };
    out
}

// The spans after one more sample at `now`: it joins the newest, or opens a span.
pub fn span(spans: [Span; SPANS], now: u64, rtt: u64, horizon: u64) -> [Span; SPANS]
    ensures { result ≡ span_of now rtt horizon spans }
{
    let mut out = spans;
    drop_past(&mut out, now, horizon);
    let slot = rtt::marked::newest(&out);
    if slot < SPANS && joins(out[slot], now, horizon) {
        out[slot] = joined(out[slot], now, rtt);
        return out;
    }
    opened(out, now, rtt)
}

// The least round trip over the horizon.
#[tactic(auto, unfolding(rtt::specs::Spans::base_rtt))]
pub fn base_rtt(spans: [Span; SPANS]) -> Option<u64>
    ensures { result ≡ base_rtt spans }
{
    rtt::marked::least(&spans)
}
