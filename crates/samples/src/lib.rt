// The 32 samples of the window.
#![tactic(auto)]

ghost use Rattle.std.specs.Prelude.{◌≡◌};
ghost use Rattle.base.specs.Passes.{overtakes};
ghost use Rattle.rtt.specs.Samples.{is_old, kept_sample, kept_samples, is_sample, sample_earlier, with_sample, min_rtt, max_rtt, samples_of};

use rtt::types::{SAMPLES, Sample};

// Whether a sample is older than the window.
pub fn is_old(s: Sample, now: u64, window: u64) -> bool
    ensures { result ≡ is_old now window s }
{
    s.used & (window < base::time::elapsed(now, s.at))
}

// A place as the window leaves it.
fn kept(s: Sample, now: u64, window: u64) -> Sample
    ensures { result ≡ kept_sample now window s }
{
    if is_old(s, now, window) {
        Sample::none()
    } else {
        s
    }
}

// The samples without those older than the window.
fn dropped(rtts: [Sample; SAMPLES], now: u64, window: u64) -> [Sample; SAMPLES]
    ensures { result ≡ kept_samples now window rtts }
{
    let mut out = rtts;
    for (i, s) in rtts.iter().enumerate() {
        out[i] = kept(*s, now, window);
    }
    out
}

// Whether a sample takes the place of the oldest found so far: of equals the first stays.
pub fn older(s: Sample, oldest: Sample) -> bool
    ensures { result ≡ overtakes is_sample sample_earlier s oldest }
{
    rtt::marked::older(s, oldest)
}

// The samples after one more at `now`, those older than the window dropped.
#[tactic(auto, unfolding(rtt::specs::Samples::with_sample))]
pub fn keep(rtts: [Sample; SAMPLES], now: u64, rtt: u64, window: u64) -> [Sample; SAMPLES]
    ensures { result ≡ with_sample now rtt window rtts }
{
    let mut out = dropped(rtts, now, window);
    let slot = rtt::marked::place(&out);
    out[slot] = Sample {
        at: now,
        rtt,
        used: true,
    };
    out
}

// The least round trip among the window's samples.
#[tactic(auto, unfolding(rtt::specs::Samples::min_rtt))]
pub fn min_rtt(rtts: [Sample; SAMPLES]) -> Option<u64>
    ensures { result ≡ min_rtt rtts }
{
    rtt::marked::least(&rtts)
}

// The largest round trip among the window's samples.
pub fn max_rtt(rtts: [Sample; SAMPLES]) -> Option<u64>
    ensures { result ≡ max_rtt rtts }
{
    rtts.iter().filter(|s| s.used).map(|s| s.rtt).max()
}

// How many samples the window holds.
#[tactic(auto, unfolding(rtt::specs::Samples::samples_of))]
pub fn samples(rtts: [Sample; SAMPLES]) -> usize
    ensures { result ≡ samples_of rtts }
{
    rtts.iter().filter(|s| s.used).count()
}
