// Answers as numbers: the refusal number or 0, then the values, 0 where there are fewer than five.
ghost use Rattle.std.specs.Prelude.{◌≡◌};
ghost use Rattle.script.specs.Answers.{answer_called, outcome, plain, valued, timed, score_called, matched};
ghost use Rattle.script.specs.Answers.{kindless};

use crate::types::Called;
use base::types::*;
use live::answers::*;
use live::types::*;

// An answer with a path: its number, its value, and the probe that it names.
pub fn of_answer(path: Liveness, a: Result<Answer, Refusal>) -> Called
    ensures { result ≡ answer_called path a }
{
    let s = sent(a);
    Called {
        path,
        words: [
            number(a),
            value(a),
            u64::from(s.probe_id),
            s.at,
            s.due,
            u64::from(s.len),
        ],
    }
}

// What a method gives.
pub fn of_outcome(o: Outcome) -> Called
    ensures { result ≡ outcome o }
{
    of_answer(o.path, o.answer)
}

// A call that gives a path and no value.
pub fn give(path: Liveness) -> Called
    ensures { result ≡ plain path }
{
    of_answer(path, Ok(Answer::Done))
}

// A call that is none: refused as 15.
pub fn no_kind(path: Liveness) -> Called
    ensures { result ≡ kindless path }
{
    of_answer(path, Err(Refusal::Kind))
}

// A call that leaves the path and gives one number.
pub fn tell(path: Liveness, x: u64) -> Called
    ensures { result ≡ valued path x }
{
    Called {
        path,
        words: [0, x, 0, 0, 0, 0],
    }
}

// A call that leaves the path and gives what may be missing, an instant, a duration or a length: 1 and the number, or 0.
pub fn tell_maybe(path: Liveness, x: Option<u64>) -> Called
    ensures { result ≡ timed path x }
{
    Called {
        path,
        words: [0, base::missing::tag(x), x.unwrap_or(0), 0, 0, 0],
    }
}

// A score by its pattern, if there is one.
pub fn tell_score(path: Liveness, x: Option<f64>) -> Called
    ensures { result ≡ score_called path x }
{
    tell_maybe(path, x.map(total::etx_bits))
}

// Whether what `answer` gave is a matching answer.
pub fn of_matching(o: Outcome) -> Called
    ensures { result ≡ matched o }
{
    Called {
        path: o.path,
        words: [number(o.answer), u64::from(matching(o.answer)), 0, 0, 0, 0],
    }
}
