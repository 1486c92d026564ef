// `send` and `answer` on a path that is changed through a reference: two thin functions over the by-value core, and on
// plain parameters a caller of each.
#![tactic(auto)]

ghost use Rattle.std.specs.Prelude.{◌≡◌};
ghost use Rattle.live.specs.Probe.{send_of, answer_of};

use base::types::Refusal;
use live::types::{Answer, Liveness, Outcome};

// A probe of len bytes sent at `at`, due at `due`; a refusal leaves the path as it came.
pub fn send(l: &mut Liveness, at: u64, due: u64, len: u32, draw: u32) -> Result<Answer, Refusal>
    ensures { (result ≡ (send_of l.old at due len draw).answer)
        × (l.new ≡ (send_of l.old at due len draw).path) }
{
    let Outcome { path, answer } = l.send(at, due, len, draw);
    *l = path;
    answer
}

// Takes the probe id out of the ring, or else out of the late list; a refusal leaves the path as it came.
pub fn answer(l: &mut Liveness, id: u32) -> Result<Answer, Refusal>
    ensures { (result ≡ (answer_of l.old id).answer)
        × (l.new ≡ (answer_of l.old id).path) }
{
    let Outcome { path, answer } = l.answer(id);
    *l = path;
    answer
}

// A caller of `answer` on plain parameters: the by-value answer, through a reference to a local.
pub fn answer_in(l: Liveness, id: u32) -> Outcome
    ensures { result ≡ answer_of l id }
{
    let mut path = l;
    let answer = answer(&mut path, id);
    Outcome { path, answer }
}

// A caller of `send` on plain parameters: the by-value send, through a reference to a local.
pub fn send_in(l: Liveness, at: u64, due: u64, len: u32, draw: u32) -> Outcome
    ensures { result ≡ send_of l at due len draw }
{
    let mut path = l;
    let answer = send(&mut path, at, due, len, draw);
    Outcome { path, answer }
}
