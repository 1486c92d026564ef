// One more round trip.
ghost use Rattle.std.specs.Prelude.{◌≡◌};
ghost use Rattle.rtt.specs.Rtts.{sampled_rtts};

use rtt::types::Rtts;

// What has been measured, after a round trip measured at `now`.
pub fn sample(r: Rtts, now: u64, rtt: u64, window: u64, horizon: u64) -> Rtts
    ensures { result ≡ sampled_rtts r now rtt window horizon }
{
    Rtts {
        samples: samples::keep(r.samples, now, rtt, window),
        spans: crate::span(r.spans, now, rtt, horizon),
        rtt: Some(rtt),
    }
}
