// Round trips, ETX, frames received, and the stop of a path.
ghost use Rattle.std.specs.Prelude.{◌≡◌};
ghost use Rattle.stop.specs.Silence.{stopped_of, held_until, recheck_of};
ghost use Rattle.live.specs.Times.{sample_of, folded_of, timeout_of, heard_of, carried_of, shed_of, halted_of, spent_of};
ghost use Rattle.live.specs.Times.{owed_of, rebased_of};

use crate::answers::refused;
use crate::types::{Answer, Liveness, Outcome, Traffic};
use base::limits::{DURATION_END, MAX_LEN};
use base::types::Refusal;

impl Liveness {
    // Records a round trip measured at `now`.
    #[tactic(auto, unfolding(crate::specs::Times::sample_of))]
    pub fn sample(mut self, now: u64, rtt: u64, window: u64, horizon: u64) -> Outcome
        ensures { result ≡ sample_of self now rtt window horizon }
    {
        if DURATION_END <= rtt || DURATION_END <= window || DURATION_END <= horizon {
            return refused(self, Refusal::Duration);
        }
        self.rtts = spans::rtts::sample(self.rtts, now, rtt, window, horizon);
        Outcome {
            path: self,
            answer: Ok(Answer::Done),
        }
    }

    // Folds one probe's outcome into the ETX.
    pub fn fold(mut self, delivered: bool) -> Self
        ensures { result ≡ folded_of self delivered }
    {
        self.etx = etx::fold(self.etx, delivered);
        self
    }

    // How long a probe waits for its answer.
    #[tactic(auto, unfolding(crate::specs::Times::timeout_of))]
    pub fn timeout(self, floor: u64, cap: u64) -> Result<Answer, Refusal>
        ensures { result ≡ timeout_of self floor cap }
    {
        if DURATION_END <= floor || DURATION_END <= cap {
            return Err(Refusal::Duration);
        }
        let largest = self.max_rtt();
        Ok(Answer::Time(rtt::times::timeout(self.rtts.rtt, largest, floor, cap)))
    }

    // Counts one authentic frame of len bytes received at `now`, modulo 2^32.
    #[tactic(auto, unfolding(crate::specs::Times::heard_of))]
    pub fn heard(self, len: u32, now: u64) -> Outcome
        ensures { result ≡ heard_of self len now }
    {
        if MAX_LEN < len {
            return refused(self, Refusal::Length);
        }
        let traffic = Traffic {
            heard_at: Some(now),
            frames: self.traffic.frames.wrapping_add(1),
            bytes: self.traffic.bytes.wrapping_add(len),
            ..self.traffic
        };
        Outcome {
            path: Liveness { traffic, ..self },
            answer: Ok(Answer::Done),
        }
    }

    // Records that a session datagram arrived at `now`.
    pub fn carried(mut self, now: u64) -> Self
        ensures { result ≡ carried_of self now }
    {
        self.traffic.data_at = Some(now);
        self
    }

    // Takes one frame of len bytes back from the counts, modulo 2^32.
    #[tactic(auto, unfolding(crate::specs::Times::shed_of))]
    pub fn shed(self, len: u32) -> Outcome
        ensures { result ≡ shed_of self len }
    {
        if MAX_LEN < len {
            return refused(self, Refusal::Length);
        }
        let traffic = Traffic {
            frames: self.traffic.frames.wrapping_sub(1),
            bytes: self.traffic.bytes.wrapping_sub(len),
            ..self.traffic
        };
        Outcome {
            path: Liveness { traffic, ..self },
            answer: Ok(Answer::Done),
        }
    }

    // The path stopped answering at `at`, unless it already has.
    pub fn halt(self, at: u64, active: bool) -> Self
        ensures { result ≡ halted_of self at active }
    {
        Liveness {
            silence: stop::silence::halt(self.silence, at, active),
            ..self
        }
    }

    // Counts a slot of the path's own cadence used at `at`, while it has stopped answering.
    pub fn spend(self, at: u64) -> Self
        ensures { result ≡ spent_of self at }
    {
        Liveness {
            silence: stop::silence::spend(self.silence, at),
            ..self
        }
    }

    // Marks the slot just counted as gone to a connection asked for in place of a probe.
    pub fn owe(self) -> Self
        ensures { result ≡ owed_of self }
    {
        Liveness {
            silence: stop::silence::owe(self.silence),
            ..self
        }
    }

    // Settles the connection that a counted slot went to.
    pub fn rebase(self, at: u64, ok: bool) -> Self
        ensures { result ≡ rebased_of self at ok }
    {
        Liveness {
            silence: stop::silence::rebase(self.silence, at, ok),
            ..self
        }
    }

    // Whether the path has stopped answering.
    pub fn stopped(self) -> bool
        ensures { result ≡ stopped_of self.silence }
    {
        stop::silence::stopped(self.silence)
    }

    // While stopped, the instant from which the next probe on the path's own cadence may go.
    pub fn held(self) -> Option<u64>
        ensures { result ≡ held_until self.silence }
    {
        stop::silence::held(self.silence)
    }

    // While stopped with a re-check, the least gap after the next probe.
    pub fn recheck(self) -> Option<u64>
        ensures { result ≡ recheck_of self.silence }
    {
        stop::silence::recheck(self.silence)
    }
}
