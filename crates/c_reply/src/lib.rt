// What a C function gives back where a call can be refused: a number and a value. Each of the two types is C's own, with
// its layout and name, and so has its functions.
#![tactic(auto)]

ghost use Rattle.std.specs.Prelude.{◌≡◌};
ghost use Rattle.c_reply.specs.Replies.{refused_reply, given, no_float, given_float, answered};

use base::types::*;

// A refusal number, 0 if accepted, and the value, 0 if refused.
#[repr(C)]
#[derive(Clone, Copy)]
pub struct Reply {
    pub number: u64,
    pub value: u64,
}

// The same where the value is a float.
#[repr(C)]
#[derive(Clone, Copy)]
pub struct FloatReply {
    pub number: u64,
    pub value: f64,
}

// A refusal.
pub fn refuse(why: Refusal) -> Reply
    ensures { result ≡ refused_reply why }
{
    Reply {
        number: why.number(),
        value: 0,
    }
}

// A value.
pub fn give(value: u64) -> Reply
    ensures { result ≡ given value }
{
    Reply { number: 0, value }
}

// A refusal where the value is a float.
pub fn refuse_float(why: Refusal) -> FloatReply
    ensures { result ≡ no_float why }
{
    FloatReply {
        number: why.number(),
        value: 0.0,
    }
}

// A float.
pub fn give_float(value: f64) -> FloatReply
    ensures { result ≡ given_float value }
{
    FloatReply { number: 0, value }
}

// What was answered: a number, or the refusal.
impl From<Result<u64, Refusal>> for Reply {
    ghost from_gives = { λ a r. r ≡ answered a };

    fn from(answer: Result<u64, Refusal>) -> Reply {
        answer.map_or_else(refuse, give)
    }
}
