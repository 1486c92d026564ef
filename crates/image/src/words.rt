// The numbers of each part of a path, in the order of the image.
ghost use Rattle.base.specs.Missing.{tag};
ghost use Rattle.std.specs.Prelude.{◌≡◌, ℕ, List, length, refl, unwrap_or};
ghost use Rattle.image.specs.Image.{sent_words, ids_words};
ghost use Rattle.image.specs.Image.{time_words, stop_words, size_words, traffic_words, sample_words, span_words};

use base::missing::*;
use base::types::*;
use live::types::*;
use ring::types::*;
use rtt::types::*;
use seek::types::*;
use stop::types::*;

// An element of a list that a path keeps: its numbers.
pub trait Element<const W: usize>: Copy {
    ghost words: { Self → List ℕ };

    // What the image shows of it.
    fn numbers(self) -> [u64; W]
        ensures { result ≡ words self };

    ghost wide: { (x : Self) → length (words x) ≡ W };
}

// A place of the ring or of the late list.
impl Element<5> for Sent {
    ghost words = { sent_words };

    ghost wide = { λ x. refl };

    fn numbers(self) -> [u64; 5] {
        [
            u64::from(self.used),
            u64::from(self.probe_id),
            self.at,
            self.due,
            u64::from(self.len),
        ]
    }
}

// One sample.
impl Element<3> for Sample {
    ghost words = { sample_words };

    ghost wide = { λ x. refl };

    fn numbers(self) -> [u64; 3] {
        [u64::from(self.used), self.at, self.rtt]
    }
}

// One span.
impl Element<4> for Span {
    ghost words = { span_words };

    ghost wide = { λ x. refl };

    fn numbers(self) -> [u64; 4] {
        [u64::from(self.used), self.from, self.to, self.rtt]
    }
}

// The identifiers.
pub fn ids_words(ids: Ids) -> [u64; 8]
    ensures { result ≡ ids_words ids }
{
    [
        tag(ids.next_id),
        u64::from(ids.next_id.unwrap_or(0)),
        tag(ids.answered),
        u64::from(ids.answered.unwrap_or(0)),
        tag(ids.epoch),
        u64::from(ids.epoch.unwrap_or(0)),
        tag(ids.since),
        u64::from(ids.since.unwrap_or(0)),
    ]
}

// An instant or a duration that may be missing.
pub fn time_words(x: Option<u64>) -> [u64; 2]
    ensures { result ≡ time_words x }
{
    [tag(x), x.unwrap_or(0)]
}

// The stop, seven zeros if there is none.
pub fn stop_words(x: Option<Stop>) -> [u64; 7]
    ensures { result ≡ stop_words x }
{
    let Some(s) = x else {
        return [0; 7];
    };
    [
        1,
        s.free,
        s.gap,
        s.used,
        tag(s.until),
        s.until.unwrap_or(0),
        u64::from(s.owed),
    ]
}

// The misses, the ladder, the proven size and the search.
pub fn size_words(misses: u32, ladder: Ladder, sizes: Sizes) -> [u64; 11]
    ensures { result ≡ size_words misses ladder sizes }
{
    let seek = sizes.seek;
    [
        u64::from(misses),
        tag(ladder.last),
        u64::from(ladder.last.unwrap_or(0)),
        u64::from(ladder.fallen),
        tag(sizes.proven),
        u64::from(sizes.proven.unwrap_or(0)),
        tag(seek.at),
        seek.at.unwrap_or(0),
        u64::from(seek.probe_id),
        u64::from(seek.len),
        u64::from(seek.lost),
    ]
}

// The frames received.
pub fn traffic_words(t: Traffic) -> [u64; 6]
    ensures { result ≡ traffic_words t }
{
    [
        u64::from(t.frames),
        u64::from(t.bytes),
        tag(t.heard_at),
        t.heard_at.unwrap_or(0),
        tag(t.data_at),
        t.data_at.unwrap_or(0),
    ]
}
