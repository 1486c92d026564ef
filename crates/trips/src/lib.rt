// The least round trips in a slot's rows, of the window and of the horizon, read in place.
#![tactic(auto)]

ghost use Rattle.std.specs.Prelude.{min, ◌≡◌};
ghost use mathlib.Core.List.{foldl};
ghost use Rattle.base.specs.Seq.{position};
ghost use Rattle.rtt.specs.Samples.{is_sample, round_trips, min_rtt};
ghost use Rattle.rtt.specs.Spans.{base_rtt};
ghost use Rattle.rows.specs.View.{path_in};
ghost use Rattle.trips.specs.Trips.{lower_at};

use base::time::lower;
use rowmeasures::*;
use rows::places::*;
use rtt::types::*;

// The place of the first sample in the window, 32 where there is none.
fn first_used(p: &[[u64; 4]; ROWS]) -> usize
    ensures { result ≡ position is_sample (path_in p.now).rtts.samples }
{
    for i in 0..SAMPLES {
        if sample(p, i).used {
            return i;
        }
    }
    SAMPLES
}

// The lower of a round trip and that of the sample at a place, if it is one.
fn lower_at(p: &[[u64; 4]; ROWS], i: usize, least: u64) -> u64
    ensures { result ≡ lower_at (path_in p.now).rtts.samples i least }
{
    let s = sample(p, i);
    if s.used { least.min(s.rtt) } else { least }
}

// The least of `first` and the round trips of the window's samples, two at a turn: the halves of a row are compared
// apart, so that neither waits for the other.
fn least_of(p: &[[u64; 4]; ROWS], first: u64) -> u64
    ensures { result ≡ foldl min first (round_trips (path_in p.now).rtts.samples) }
{
    let mut even = first;
    let mut odd = first;
    for k in 0..SAMPLES / 2 {
        even = lower_at(p, 2 * k, even);
        odd = lower_at(p, 2 * k + 1, odd);
    }
    even.min(odd)
}

// The least round trip among the window's samples.
pub fn min_rtt(p: &[[u64; 4]; ROWS]) -> Option<u64>
    ensures { result ≡ min_rtt (path_in p.now).rtts.samples }
{
    let k = first_used(p);
    if SAMPLES <= k {
        return None;
    }
    Some(least_of(p, sample(p, k).rtt))
}

// The least round trip over the horizon.
pub fn base_rtt(p: &[[u64; 4]; ROWS]) -> Option<u64>
    ensures { result ≡ base_rtt (path_in p.now).rtts.spans }
{
    let mut least = None;
    for i in 0..SPANS {
        let s = span(p, i);
        if s.used {
            least = lower(least, s.rtt);
        }
    }
    least
}
