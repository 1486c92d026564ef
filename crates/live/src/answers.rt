// Answers as document 01's numbers, and the one shape of a refusal.
ghost use Rattle.std.specs.Prelude.{◌≡◌};
ghost use Rattle.live.specs.Answers.{answer_number, answer_value, answer_sent, is_matching, refused, value_in, sent_in, is_in_time};

use crate::types::{Answer, Liveness, Outcome};
use base::types::Refusal;
use ring::ring::none;
use ring::types::Sent;

// A refused call: the path as it came, and why.
pub fn refused(path: Liveness, why: Refusal) -> Outcome
    ensures { result ≡ refused path why }
{
    Outcome {
        path,
        answer: Err(why),
    }
}

impl Answer {
    // The answer's value, 0 where there is none.
    pub fn value(self) -> u64
        ensures { result ≡ value_in self }
    {
        match self {
            Answer::Id(id) => u64::from(id),
            Answer::InTime(_) => 1,
            Answer::Late(_) => 2,
            Answer::Lapsed(miss) => if miss { 1 } else { 2 },
            Answer::Len(n) => u64::from(n),
            Answer::Time(t) => t,
            Answer::Flag(on) => u64::from(on),
            Answer::Done | Answer::Idle => 0,
        }
    }

    // The probe that the answer names, or none.
    pub fn sent(self) -> Sent
        ensures { result ≡ sent_in self }
    {
        match self {
            Answer::InTime(s) | Answer::Late(s) => s,
            _ => none(),
        }
    }

    // Whether the answer is a matching one: an answer in time is, a late one is not.
    pub fn matching(self) -> bool
        ensures { result ≡ is_in_time self }
    {
        matches!(self, Answer::InTime(_))
    }
}

// The refusal number of a call, 0 if it was carried out.
pub fn number(answer: Result<Answer, Refusal>) -> u64
    ensures { result ≡ answer_number answer }
{
    answer.err().map_or(0, |why| why.number())
}

// The value of a call, 0 where there is none.
pub fn value(answer: Result<Answer, Refusal>) -> u64
    ensures { result ≡ answer_value answer }
{
    answer.map_or(0, |a| a.value())
}

// The probe that a call's answer names, or none.
pub fn sent(answer: Result<Answer, Refusal>) -> Sent
    ensures { result ≡ answer_sent answer }
{
    answer.map_or(none(), |a| a.sent())
}

// Whether a call found a matching answer.
pub fn matching(answer: Result<Answer, Refusal>) -> bool
    ensures { result ≡ is_matching answer }
{
    answer.is_ok_and(|a| a.matching())
}
