// The places of what a path measures in a slot's rows: sizes, the stop, traffic, ETX, round trips. A store leaves all else; a
// place that is not there reads as a gap, and a store to it changes nothing.
#![tactic(auto)]

ghost use Rattle.std.specs.Prelude.{◌≡◌, set, get_or};
ghost use Rattle.rtt.specs.Samples.{no_sample};
ghost use Rattle.rtt.specs.Spans.{no_span};
ghost use Rattle.live.specs.Path.{with_sizes, with_traffic, with_etx};
ghost use Rattle.rows.specs.Parts.{with_proven, with_seek_in, with_stop, with_samples, with_spans, with_trip};
ghost use Rattle.rows.specs.Places.{trips_at};
ghost use Rattle.rows.specs.View.{path_in, with_cell};
ghost use Rattle.rows.specs.Says.{Says};

use base::missing::*;
use base::types::*;
use cells::words::*;
use live::types::Traffic;
use pathwords::measures::*;
use rows::places::*;
use rtt::types::*;
use seek::types::*;
use stop::types::Stop;

// The sizes with the search.
#[tactic(auto, unfolding(rows::specs::View::path_in))]
pub fn sizes(p: &[[u64; 4]; ROWS]) -> Sizes
    ensures { result ≡ (path_in p.now).sizes }
{
    let t = p[CLOCKS_AT];
    let u = p[SEARCH_AT];
    sizes_in(t[2], t[3], u[0], u[1], u[2])
}

// Stores the sizes with the search.
pub fn set_sizes(p: &mut [[u64; 4]; ROWS], s: Sizes)
    ensures { Says p.old p.new (with_sizes (path_in p.old) s) }
{
    let t = p[CLOCKS_AT];
    let u = p[SEARCH_AT];
    let b = put_half(u, false, search_word(s.seek), u64::from(s.seek.lost));
    p[CLOCKS_AT] = put_half(t, true, tag(s.seek.at), s.seek.at.unwrap_or(0));
    p[SEARCH_AT] = put(b, 2, len_word(s.proven));
}

// Stores the proven size.
pub fn set_proven(p: &mut [[u64; 4]; ROWS], m: Option<u16>)
    ensures { Says p.old p.new (with_proven (path_in p.old) m) }
{
    p[SEARCH_AT] = put(p[SEARCH_AT], 2, len_word(m));
}

// Stores the search.
pub fn set_seek(p: &mut [[u64; 4]; ROWS], s: Seek)
    ensures { Says p.old p.new (with_seek_in (path_in p.old) s) }
{
    let t = p[CLOCKS_AT];
    let u = p[SEARCH_AT];
    p[CLOCKS_AT] = put_half(t, true, tag(s.at), s.at.unwrap_or(0));
    p[SEARCH_AT] = put_half(u, false, search_word(s), u64::from(s.lost));
}

// Stores the stop.
pub fn set_stop(p: &mut [[u64; 4]; ROWS], m: Option<Stop>)
    ensures { Says p.old p.new (with_stop (path_in p.old) m) }
{
    let t = p[TRIPS_AT];
    p[STOP_AT] = stop_row(m);
    p[TRIPS_AT] = put(t, 0, until_word(m));
}

// The frames received.
#[tactic(auto, unfolding(rows::specs::View::path_in))]
pub fn traffic(p: &[[u64; 4]; ROWS]) -> Traffic
    ensures { result ≡ (path_in p.now).traffic }
{
    traffic_in(p[ARRIVALS_AT], p[MARKS_AT][0])
}

// Stores the frames received.
pub fn set_traffic(p: &mut [[u64; 4]; ROWS], s: Traffic)
    ensures { Says p.old p.new (with_traffic (path_in p.old) s) }
{
    let m = p[MARKS_AT];
    p[ARRIVALS_AT] = arrivals_row(s);
    p[MARKS_AT] = put(m, 0, count_word(s));
}

// When the last session datagram came.
#[tactic(auto, unfolding(rows::specs::View::path_in, cells::specs::Cells::traffic_in))]
pub fn data_at(p: &[[u64; 4]; ROWS]) -> Option<u64>
    ensures { result ≡ (path_in p.now).traffic.data_at }
{
    let t = p[ARRIVALS_AT];
    time_in(t[2], t[3])
}

// The ETX.
#[tactic(auto, unfolding(rows::specs::View::path_in))]
pub fn etx(p: &[[u64; 4]; ROWS]) -> f64
    ensures { result ≡ (path_in p.now).etx }
{
    etx_in(p[TRIPS_AT][1])
}

// Stores the word of an ETX.
pub fn set_etx_word(p: &mut [[u64; 4]; ROWS], w: u64)
    ensures { p.new ≡ with_cell p.old trips_at 1 w }
{
    p[TRIPS_AT] = put(p[TRIPS_AT], 1, w);
}

// Stores the ETX.
pub fn set_etx(p: &mut [[u64; 4]; ROWS], x: f64)
    ensures { Says p.old p.new (with_etx (path_in p.old) x) }
{
    set_etx_word(p, etx_word(x));
}

// The latest round trip.
#[tactic(auto, unfolding(rows::specs::View::path_in))]
pub fn trip(p: &[[u64; 4]; ROWS]) -> Option<u64>
    ensures { result ≡ (path_in p.now).rtts.rtt }
{
    let t = p[TRIPS_AT];
    time_in(t[2], t[3])
}

// Stores the latest round trip.
pub fn set_trip(p: &mut [[u64; 4]; ROWS], m: Option<u64>)
    ensures { Says p.old p.new (with_trip (path_in p.old) m) }
{
    p[TRIPS_AT] = put_half(p[TRIPS_AT], true, tag(m), m.unwrap_or(0));
}

// The sample at a place of the window.
pub fn sample(p: &[[u64; 4]; ROWS], i: usize) -> Sample
    ensures { result ≡ get_or (path_in p.now).rtts.samples i no_sample }
{
    if SAMPLES <= i {
        return Sample::none();
    }
    sample_in(p[SAMPLES_AT + i / 2], i % 2 == 1, bit_in(p[MARKS_AT][1], i))
}

// Stores a sample at a place of the window.
pub fn set_sample(p: &mut [[u64; 4]; ROWS], i: usize, s: Sample)
    ensures { Says p.old p.new
        (with_samples (path_in p.old) (set (path_in p.old).rtts.samples i s)) }
{
    if SAMPLES <= i {
        return;
    }
    let t = p[SAMPLES_AT + i / 2];
    let m = p[MARKS_AT];
    p[SAMPLES_AT + i / 2] = put_half(t, i % 2 == 1, s.at, s.rtt);
    p[MARKS_AT] = put(m, 1, with_bit(m[1], i, s.used));
}

// The span at a place of the horizon.
pub fn span(p: &[[u64; 4]; ROWS], i: usize) -> Span
    ensures { result ≡ get_or (path_in p.now).rtts.spans i no_span }
{
    if SPANS <= i {
        return Span::none();
    }
    span_in(p[SPANS_AT + i])
}

// Stores a span at a place of the horizon.
pub fn set_span(p: &mut [[u64; 4]; ROWS], i: usize, s: Span)
    ensures { Says p.old p.new
        (with_spans (path_in p.old) (set (path_in p.old).rtts.spans i s)) }
{
    if SPANS <= i {
        return;
    }
    p[SPANS_AT + i] = span_row(s);
}
