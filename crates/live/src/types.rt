// What a path's liveness is made of, and what its methods answer.
use base::types::Refusal;
use ring::types::{Ids, LATE, RING, Sent};
use rtt::types::Rtts;
use seek::types::{Ladder, Sizes};
use stop::types::Silence;

// The frames received: when the last one and the last session datagram came, how many, and their bytes, both modulo
// 2^32.
#[derive(Clone, Copy)]
pub struct Traffic {
    pub heard_at: Option<u64>,
    pub data_at: Option<u64>,
    pub frames: u32,
    pub bytes: u32,
}

// One path: RTTs, ring, late list, silence clock with the stop, identifiers, sizes with the search, ladder, traffic,
// ETX, misses.
#[derive(Clone, Copy)]
pub struct Liveness {
    pub rtts: Rtts,
    pub ring: [Sent; RING],
    pub late: [Sent; LATE],
    pub silence: Silence,
    pub ids: Ids,
    pub sizes: Sizes,
    pub ladder: Ladder,
    pub traffic: Traffic,
    pub etx: f64,
    pub misses: u32,
}

// What `take_id` gives: the identifier, and the path after it.
#[derive(Clone, Copy)]
pub struct Taking {
    pub path: Liveness,
    pub id: u32,
}

// What a method answers: Done where it has nothing to say; Id of `send`, `seek_send` and `seek_ring`; InTime and Late
// of `answer`, with the probe; Idle and Lapsed of `expire`, with whether the one that lapsed was a miss; Len of `size`,
// `seek_size` and `seek_answer`; Time of `timeout`; Flag of `prove` (the proven size changed), `seek_proved` (it rose)
// and `seek_judge` (the probe was lost now).
#[derive(Clone, Copy)]
pub enum Answer {
    Done,
    Id(u32),
    InTime(Sent),
    Late(Sent),
    Idle,
    Lapsed(bool),
    Len(u16),
    Time(u64),
    Flag(bool),
}

// What a method gives: the path after it, which is as it came where the answer is a refusal, and the answer.
#[derive(Clone, Copy)]
pub struct Outcome {
    pub path: Liveness,
    pub answer: Result<Answer, Refusal>,
}
