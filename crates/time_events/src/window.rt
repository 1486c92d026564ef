// The 32 samples of the window, in the slot's rows.
ghost use Rattle.std.specs.Prelude.{◌≡◌, slice_index_or, slice_set};
ghost use Rattle.rtt.specs.Samples.{no_sample, kept_sample, kept_samples, with_sample};
ghost use Rattle.rows.specs.Parts.{with_samples};
ghost use Rattle.rows.specs.Says.{Says};
ghost use Rattle.rows.proofs.ViewLaws.{samples-length};
ghost use Rattle.rows.specs.View.{path_in};
ghost use Rattle.time_events.specs.Pairs.{led_of};

use crate::places::*;
use rowmeasures::*;
use rows::places::*;
use rtt::types::*;
use samples::*;

// Drops the sample at a place if it is older than the window.
fn forget_at(p: &mut [[u64; 4]; ROWS], i: usize, at: u64, window: u64)
    ensures { Says p.old p.new (with_samples (path_in p.old)
        (slice_set (path_in p.old).rtts.samples i
        (kept_sample at window (slice_index_or (path_in p.old).rtts.samples i no_sample)))) }
{
    let s = sample(p, i);
    if is_old(s, at, window) {
        set_sample(p, i, Sample::none());
    }
}

// Drops the samples older than the window, two at a turn: they stand in one row.
fn forget(p: &mut [[u64; 4]; ROWS], at: u64, window: u64)
    ensures { Says p.old p.new
        (with_samples (path_in p.old) (kept_samples at window (path_in p.old).rtts.samples)) }
{
    for k in 0..SAMPLES / 2 {
        forget_at(p, 2 * k, at, window);
        forget_at(p, 2 * k + 1, at, window);
    }
}

// The instant and the place of the oldest sample found so far; place 32 where there is none, which is `led_of`'s form.
#[derive(Clone, Copy)]
pub struct Lead {
    pub at: u64,
    pub place: usize,
}

// The oldest with one more sample.
fn led(l: Lead, s: Sample, i: usize) -> Lead
    ensures { result ≡ led_of l s i }
{
    if s.used & (!(l.place < SAMPLES) | (s.at < l.at)) {
        Lead { at: s.at, place: i }
    } else {
        l
    }
}

impl Placed for Sample {
    ghost PLACES = { 32 };

    ghost places = { λ a. (path_in a).rtts.samples };

    const PLACES: usize = SAMPLES;

    fn at(p: &[[u64; 4]; ROWS], i: usize) -> Sample {
        sample(p, i)
    }

    // The place of the oldest sample, the first of equals, or 32; two at a turn.
    fn oldest(p: &[[u64; 4]; ROWS]) -> usize {
        let mut l = Lead {
            at: 0,
            place: SAMPLES,
        };
        for k in 0..SAMPLES / 2 {
            l = led(l, sample(p, 2 * k), 2 * k);
            l = led(l, sample(p, 2 * k + 1), 2 * k + 1);
        }
        l.place
    }

    ghost long = { samples-length };
}

// One more sample, those older than the window dropped.
pub fn enter(p: &mut [[u64; 4]; ROWS], at: u64, trip: u64, window: u64)
    ensures { Says p.old p.new
        (with_samples (path_in p.old) (with_sample at trip window (path_in p.old).rtts.samples)) }
{
    forget(p, at, window);
    let slot = place::<Sample>(p);
    set_sample(
        p,
        slot,
        Sample {
            at,
            rtt: trip,
            used: true,
        },
    );
}
