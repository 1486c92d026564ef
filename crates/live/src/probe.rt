// Probes sent, answered and lapsed. A length is `as u16` after its test of `MAX_LEN`, document 01's limit.
ghost use Rattle.std.specs.Prelude.{◌≡◌};
ghost use Rattle.live.specs.Probe.{take_id_of, send_of, answer_of, expire_of, lapse_of, clear_of, thaw_of};

use crate::answers::refused;
use crate::types::{Answer, Liveness, Outcome, Taking};
use base::limits::{DURATION_END, MAX_LEN};
use base::types::Refusal;
use ring::ring::{find, first_free, none, remember, sweep, take_out};
use ring::types::{RING, Scanned, Sent};
use seek::types::Ladder;

impl Liveness {
    // Takes the path's next identifier; the draw is its first.
    pub fn take_id(self, draw: u32) -> Taking
        ensures { result ≡ take_id_of self draw }
    {
        let id = ids::taken(self.ids.next_id, draw);
        Taking {
            path: Liveness {
                ids: ids::next_ids(self.ids, id),
                ..self
            },
            id,
        }
    }

    // A probe of len bytes sent at `at`, due at `due`: into the first free place of the ring.
    #[tactic(auto, using(ring::proofs::PlaceLaws::place_none, ring::proofs::PlaceLaws::place_some), unfolding(crate::specs::Probe::send_of))]
    pub fn send(self, at: u64, due: u64, len: u32, draw: u32) -> Outcome
        ensures { result ≡ send_of self at due len draw }
    {
        if MAX_LEN < len {
            return refused(self, Refusal::Length);
        }
        let Some(slot) = first_free(&self.ring) else {
            return refused(self, Refusal::Full);
        };
        let len = len as u16;
        let kept = ids::drop_since(self.ids, &self.ring);
        let id = ids::taken(kept.next_id, draw);
        let mut path = self;
        path.ring[slot] = Sent {
            at,
            due,
            probe_id: id,
            len,
            used: true,
        };
        path.ids = ids::next_ids(kept, id);
        path.silence = stop::silence::quiet_from(self.silence, at);
        path.ladder.last = Some(len);
        Outcome {
            path,
            answer: Ok(Answer::Id(id)),
        }
    }

    // Takes the probe id out of the ring, or else out of the late list.
    #[tactic(auto, using(ring::proofs::PlaceLaws::place_none, ring::proofs::PlaceLaws::place_some), unfolding(crate::specs::Probe::answer_of))]
    pub fn answer(self, id: u32) -> Outcome
        ensures { result ≡ answer_of self id }
    {
        let mut path = self;
        if let Some(slot) = find(&self.ring, id) {
            path.ring = take_out(self.ring, slot);
            path.ids = ids::answered_ids(self.ids, id);
            path.misses = 0;
            return Outcome {
                path,
                answer: Ok(Answer::InTime(self.ring[slot])),
            };
        }
        let Some(place) = find(&self.late, id) else {
            return refused(self, Refusal::Unknown);
        };
        path.late[place] = none();
        Outcome {
            path,
            answer: Ok(Answer::Late(self.late[place])),
        }
    }

    // Takes the probe that lapses out of the ring into the late list, deferring others on the way to it.
    #[tactic(auto, unfolding(crate::specs::Probe::expire_of))]
    pub fn expire(self, now: u64, overdue: bool, cap: u64) -> Outcome
        ensures { result ≡ expire_of self now overdue cap }
    {
        if DURATION_END <= cap {
            return refused(self, Refusal::Duration);
        }
        let Scanned { ring, slot } = lapses::scan(
            self.ring,
            self.traffic.data_at,
            cap,
            now,
            overdue,
        );
        if RING <= slot {
            return Outcome {
                path: Liveness { ring, ..self },
                answer: Ok(Answer::Idle),
            };
        }
        let sent = ring[slot];
        let miss = ids::counted(self.ids, sent.probe_id);
        let fallen = ids::padded(self.ids, sent) || self.ladder.fallen;
        Outcome {
            path: Liveness {
                ring: take_out(ring, slot),
                late: remember(self.late, sent),
                ladder: Ladder {
                    fallen,
                    ..self.ladder
                },
                misses: ids::missed(self.misses, miss),
                ..self
            },
            answer: Ok(Answer::Lapsed(miss)),
        }
    }

    // Keeps a probe that was held outside the ring in the late list.
    pub fn lapse(mut self, sent: Sent) -> Self
        ensures { result ≡ lapse_of self sent }
    {
        self.late = remember(self.late, sent);
        self
    }

    // Gives up every waiting probe; the late list keeps them.
    pub fn clear(mut self) -> Self
        ensures { result ≡ clear_of self }
    {
        self.late = sweep(self.late, self.ring);
        self.ring = [none(); RING];
        self
    }

    // A probe that waits now does not count when it lapses.
    pub fn thaw(mut self) -> Self
        ensures { result ≡ thaw_of self }
    {
        self.ids = ids::thawed_ids(self.ids);
        self
    }
}
