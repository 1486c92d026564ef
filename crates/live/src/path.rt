// A path that has done nothing yet, and what can be read off one.
ghost use Rattle.std.specs.Prelude.{◌≡◌};
ghost use Rattle.ring.specs.Ring.{outstanding_of, earliest_due};
ghost use Rattle.rtt.specs.Samples.{min_rtt, max_rtt, samples_of};
ghost use Rattle.rtt.specs.Spans.{base_rtt};
ghost use Rattle.live.specs.New.{new_liveness, room_of};

use crate::types::{Liveness, Traffic};
use ring::ring::none;
use ring::types::{Ids, LATE, RING};
use rtt::types::Rtts;
use seek::types::{Ladder, Seek, Sizes};
use stop::types::Silence;

impl Liveness {
    // A path that has sent no probe and measured nothing.
    pub fn new() -> Self
        ensures { result ≡ new_liveness }
    {
        Liveness {
            rtts: Rtts::new(),
            ring: [none(); RING],
            late: [none(); LATE],
            silence: Silence::new(),
            ids: Ids {
                next_id: None,
                answered: None,
                epoch: None,
                since: None,
            },
            sizes: Sizes {
                seek: Seek::new(),
                proven: None,
            },
            ladder: Ladder {
                last: None,
                fallen: false,
            },
            traffic: Traffic {
                heard_at: None,
                data_at: None,
                frames: 0,
                bytes: 0,
            },
            etx: 1.0,
            misses: 0,
        }
    }

    // Probes sent and not yet answered or lapsed.
    pub fn outstanding(self) -> usize
        ensures { result ≡ outstanding_of self.ring }
    {
        ring::ring::outstanding(self.ring)
    }

    // Whether another probe may go out with at most `cap` outstanding.
    pub fn room(self, cap: u64) -> bool
        ensures { result ≡ room_of self cap }
    {
        let n = self.outstanding();
        (n as u64) < cap && n < RING
    }

    // The earliest instant at which a waiting probe is due.
    pub fn earliest_due(self) -> Option<u64>
        ensures { result ≡ earliest_due self.ring }
    {
        ring::ring::earliest_due(self.ring)
    }

    // Consecutive unanswered probes.
    pub fn misses(self) -> u32
        ensures { result ≡ self.misses }
    {
        self.misses
    }

    // The latest round trip.
    pub fn rtt(self) -> Option<u64>
        ensures { result ≡ self.rtts.rtt }
    {
        self.rtts.rtt
    }

    // The least round trip among the window's samples.
    pub fn min_rtt(self) -> Option<u64>
        ensures { result ≡ min_rtt self.rtts.samples }
    {
        samples::min_rtt(self.rtts.samples)
    }

    // The largest round trip among the window's samples.
    pub fn max_rtt(self) -> Option<u64>
        ensures { result ≡ max_rtt self.rtts.samples }
    {
        samples::max_rtt(self.rtts.samples)
    }

    // The least round trip over the horizon.
    pub fn base_rtt(self) -> Option<u64>
        ensures { result ≡ base_rtt self.rtts.spans }
    {
        spans::base_rtt(self.rtts.spans)
    }

    // Round-trip samples in the window.
    pub fn samples(self) -> usize
        ensures { result ≡ samples_of self.rtts.samples }
    {
        samples::samples(self.rtts.samples)
    }

    // The smoothed expected transmission count.
    pub fn etx(self) -> f64
        ensures { result ≡ self.etx }
    {
        self.etx
    }

    // The proven size.
    pub fn mtu(self) -> Option<u16>
        ensures { result ≡ self.sizes.proven }
    {
        self.sizes.proven
    }

    // Authentic frames attributed to the path, modulo 2^32.
    pub fn frames(self) -> u32
        ensures { result ≡ self.traffic.frames }
    {
        self.traffic.frames
    }

    // Their total length in bytes, modulo 2^32.
    pub fn bytes(self) -> u32
        ensures { result ≡ self.traffic.bytes }
    {
        self.traffic.bytes
    }

    // When the latest authentic frame arrived.
    pub fn heard_at(self) -> Option<u64>
        ensures { result ≡ self.traffic.heard_at }
    {
        self.traffic.heard_at
    }

    // When the latest session datagram arrived.
    pub fn data_at(self) -> Option<u64>
        ensures { result ≡ self.traffic.data_at }
    {
        self.traffic.data_at
    }

    // The send instant of the first probe that went to the ring: the silence clock.
    pub fn quiet(self) -> Option<u64>
        ensures { result ≡ self.silence.quiet }
    {
        self.silence.quiet
    }
}
