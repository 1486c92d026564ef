// The 8 spans of the horizon, in the slot's rows.
ghost use Rattle.std.specs.Prelude.{◌≡◌};
ghost use Rattle.rtt.specs.Spans.{kept_spans, newest_span, opened_of, span_of};
ghost use Rattle.rows.specs.Parts.{with_spans};
ghost use Rattle.rows.specs.Says.{Says};
ghost use Rattle.rows.proofs.ViewLaws.{spans-length};
ghost use Rattle.rows.specs.View.{path_in};

use crate::places::*;
use rowmeasures::*;
use rows::places::*;
use rtt::types::*;
use spans::*;

// Drops the spans past the horizon.
fn forget(p: &mut [[u64; 4]; ROWS], at: u64, horizon: u64)
    ensures { Says p.old p.new
        (with_spans (path_in p.old) (kept_spans at horizon (path_in p.old).rtts.spans)) }
{
    for i in 0..SPANS {
        if is_past(rowmeasures::span(p, i), at, horizon) {
            set_span(p, i, Span::none());
        }
    }
}

// The place of the newest span, the last of equals, or 8.
fn newest(p: &[[u64; 4]; ROWS]) -> usize
    ensures { result ≡ newest_span (path_in p.now).rtts.spans }
{
    let mut best = Span::none();
    let mut place: usize = SPANS;
    for i in 0..SPANS {
        let s = rowmeasures::span(p, i);
        if newer(s, best) {
            best = s;
            place = i;
        }
    }
    place
}

impl Placed for Span {
    ghost PLACES = { 8 };

    ghost places = { λ a. (path_in a).rtts.spans };

    const PLACES: usize = SPANS;

    fn at(p: &[[u64; 4]; ROWS], i: usize) -> Span {
        rowmeasures::span(p, i)
    }

    // The place of the oldest span, the first of equals, or 8.
    fn oldest(p: &[[u64; 4]; ROWS]) -> usize {
        let mut best = Span::none();
        let mut place: usize = SPANS;
        for i in 0..SPANS {
            let s = rowmeasures::span(p, i);
            if older(s, best) {
                best = s;
                place = i;
            }
        }
        place
    }

    ghost long = { spans-length };
}

// A new span for a sample.
fn start(p: &mut [[u64; 4]; ROWS], at: u64, trip: u64)
    ensures { Says p.old p.new
        (with_spans (path_in p.old) (opened_of at trip (path_in p.old).rtts.spans)) }
{
    let slot = place::<Span>(p);
    set_span(
        p,
        slot,
        Span {
            from: at,
            to: at,
            rtt: trip,
            used: true,
        },
    );
}

// One more sample: spans past the horizon are dropped, and it joins the newest, or opens a span.
pub fn enter(p: &mut [[u64; 4]; ROWS], at: u64, trip: u64, horizon: u64)
    ensures { Says p.old p.new
        (with_spans (path_in p.old) (span_of at trip horizon (path_in p.old).rtts.spans)) }
{
    forget(p, at, horizon);
    let slot = newest(p);
    let s = rowmeasures::span(p, slot);
    if joins(s, at, horizon) {
        set_span(p, slot, joined(s, at, trip));
        return;
    }
    start(p, at, trip);
}
