// Sizes: the ladder, the proven size and the upward search. A length is `as u16` after its test of `MAX_LEN`, document
// 01's limit.
ghost use Rattle.std.specs.Prelude.{◌≡◌};
ghost use Rattle.live.specs.Search.{fresh_of, len_or, size_of, seek_size_of, prove_of, seek_send_of, ringed, seek_ring_of};
ghost use Rattle.live.specs.Search.{seek_answer_of, seek_proved_of, seek_judge_of};

use crate::answers::refused;
use crate::types::{Answer, Liveness, Outcome};
use base::limits::{DURATION_END, MAX_LEN, MIN_LEN};
use base::types::Refusal;
use seek::types::Ladder;

// A length, or the refusal where there is none.
fn len_or(len: Option<u16>, why: Refusal) -> Result<Answer, Refusal>
    ensures { result ≡ len_or why len }
{
    len.map(Answer::Len).ok_or(why)
}

// A search probe held in the ring: the next may go `gap` after it was sent; a refused one changes nothing.
fn ring_search(s: Outcome, at: u64, gap: u64) -> Outcome
    ensures { result ≡ ringed s at gap }
{
    let mut out = s;
    if out.answer.is_ok() {
        out.path.sizes = seeking::seek_next(out.path.sizes, at, gap);
    }
    out
}

impl Liveness {
    // Starts misses, epoch, search and ladder again, as every change of state does; the proven size stays.
    pub fn fresh(mut self) -> Self
        ensures { result ≡ fresh_of self }
    {
        self.ids = ids::fresh_ids(self.ids);
        self.sizes = seeking::fresh_sizes(self.sizes);
        self.ladder = Ladder {
            last: None,
            fallen: false,
        };
        self.misses = 0;
        self
    }

    // The length of the next probe of a path whose padded size is full.
    #[tactic(auto, unfolding(crate::specs::Search::size_of))]
    pub fn size(self, full: u32) -> Result<Answer, Refusal>
        ensures { result ≡ size_of self full }
    {
        if MAX_LEN < full || full < MIN_LEN {
            return Err(Refusal::Length);
        }
        Ok(Answer::Len(ladder::size(self.ladder, full as u16)))
    }

    // Takes len bytes as proven, and says whether that is another size than before.
    #[tactic(auto, unfolding(crate::specs::Search::prove_of))]
    pub fn prove(mut self, len: u32) -> Outcome
        ensures { result ≡ prove_of self len }
    {
        if MAX_LEN < len || len < MIN_LEN {
            return refused(self, Refusal::Length);
        }
        let done = seeking::prove(self.sizes, len as u16);
        self.sizes = done.sizes;
        Outcome {
            path: self,
            answer: Ok(Answer::Flag(done.changed)),
        }
    }

    // The length of the next search probe, if one may go now.
    #[tactic(auto, unfolding(crate::specs::Search::seek_size_of))]
    pub fn seek_size(self, full: u32, now: u64) -> Result<Answer, Refusal>
        ensures { result ≡ seek_size_of self full now }
    {
        if MAX_LEN < full || full < MIN_LEN {
            return Err(Refusal::Length);
        }
        len_or(
            seeking::seek_size(self.sizes, full as u16, now),
            Refusal::NoSize,
        )
    }

    // A search probe of len bytes is out from `at` on, under the path's next identifier.
    #[tactic(auto, unfolding(crate::specs::Search::seek_send_of))]
    pub fn seek_send(self, at: u64, len: u32, draw: u32) -> Outcome
        ensures { result ≡ seek_send_of self at len draw }
    {
        if MAX_LEN < len {
            return refused(self, Refusal::Length);
        }
        let taken = self.take_id(draw);
        Outcome {
            path: Liveness {
                sizes: seeking::seek_send(taken.path.sizes, at, len as u16, taken.id),
                ..taken.path
            },
            answer: Ok(Answer::Id(taken.id)),
        }
    }

    // A search probe of len bytes in the ring, as an ordinary probe.
    #[tactic(auto, unfolding(crate::specs::Search::seek_ring_of))]
    pub fn seek_ring(self, at: u64, due: u64, gap: u64, len: u32, draw: u32) -> Outcome
        ensures { result ≡ seek_ring_of self at due gap len draw }
    {
        if MAX_LEN < len {
            return refused(self, Refusal::Length);
        }
        if DURATION_END <= gap {
            return refused(self, Refusal::Duration);
        }
        ring_search(self.send(at, due, len, draw), at, gap)
    }

    // Settles the search probe that is out, if it has the identifier, and gives its length.
    #[tactic(auto, unfolding(crate::specs::Search::seek_answer_of))]
    pub fn seek_answer(self, id: u32, gap: u64) -> Outcome
        ensures { result ≡ seek_answer_of self id gap }
    {
        if DURATION_END <= gap {
            return refused(self, Refusal::Duration);
        }
        let done = seeking::seek_answer(self.sizes, id, gap);
        let Some(len) = done.len else {
            return refused(self, Refusal::Unknown);
        };
        Outcome {
            path: Liveness {
                sizes: done.sizes,
                ..self
            },
            answer: Ok(Answer::Len(len)),
        }
    }

    // An acknowledgement of `acked` bytes for a search probe of `sent` bytes; says whether the proven size rose.
    #[tactic(auto, unfolding(crate::specs::Search::seek_proved_of))]
    pub fn seek_proved(self, sent: u32, acked: u32, now: u64) -> Outcome
        ensures { result ≡ seek_proved_of self sent acked now }
    {
        if MAX_LEN < sent || MAX_LEN < acked {
            return refused(self, Refusal::Length);
        }
        let done = seeking::seek_proved(self.sizes, sent as u16, acked as u16, now);
        Outcome {
            path: Liveness {
                sizes: done.sizes,
                ..self
            },
            answer: Ok(Answer::Flag(done.raised)),
        }
    }

    // Judges the search probe that is out: it is lost now, or it waits.
    #[tactic(auto, unfolding(crate::specs::Search::seek_judge_of))]
    pub fn seek_judge(self, now: u64, timeout: u64, gap: u64) -> Outcome
        ensures { result ≡ seek_judge_of self now timeout gap }
    {
        if DURATION_END <= timeout || DURATION_END <= gap {
            return refused(self, Refusal::Duration);
        }
        let done = seeking::seek_judge(self.sizes, self.ids.answered, now, timeout, gap);
        Outcome {
            path: Liveness {
                sizes: done.sizes,
                ..self
            },
            answer: Ok(Answer::Flag(done.lost)),
        }
    }
}
