// The record's answers as document 01's number and value.
ghost use Rattle.std.specs.Prelude.{◌≡◌, false, ◌<◌, ◌^◌};
ghost use Rattle.rules.specs.Event.{number_of, value_of};
ghost use Rattle.refusals.specs.Refusals.{said_of, word_of, is_chosen};

use base::types::Refusal;
use rules::types::Reply;

// An answer: its refusal number, 0 if accepted, and its value, 0 where there is none.
#[derive(Clone, Copy)]
pub struct Said {
    pub number: u64,
    pub value: u64,
}

// An answer that is accepted, by its value.
fn accepted(value: u64) -> Said
    ensures { result ≡ record { number = 0; value = value } }
{
    Said {
        number: 0,
        value: value,
    }
}

// The number and the value of an answer. A value is below 2^32: by its type, or, of a choice, since a record has eight
// slots.
pub fn said_of(reply: Result<Reply, Refusal>) -> Said
    ensures { (result ≡ said_of reply) × (is_chosen reply ≡ false → value_of reply < 2 ^ 32) }
{
    match reply {
        Ok(Reply::Id(id)) => accepted(id as u64),
        Ok(Reply::InTime) => accepted(1),
        Ok(Reply::Late) => accepted(2),
        Ok(Reply::Search) => accepted(3),
        Ok(Reply::Count(n)) => accepted(n as u64),
        Ok(Reply::Lost) => accepted(1),
        Ok(Reply::Waits) => accepted(0),
        Ok(Reply::Chosen(slot)) => accepted(slot as u64),
        Ok(Reply::Nothing) => accepted(0),
        Err(why) => Said {
            number: why.number(),
            value: 0,
        },
    }
}

// The refusal number of an answer.
pub fn number_of(reply: Result<Reply, Refusal>) -> u64
    ensures { result ≡ number_of reply }
{
    let x = said_of(reply);
    x.number
}

// The value of an answer.
pub fn value_of(reply: Result<Reply, Refusal>) -> u64
    ensures { result ≡ value_of reply }
{
    let x = said_of(reply);
    x.value
}

// Number and value in one word, as a processor hands it back in one register.
pub fn word_of(reply: Result<Reply, Refusal>) -> u64
    ensures { (result ≡ word_of reply) × (is_chosen reply ≡ false → value_of reply < 2 ^ 32) }
{
    let x = said_of(reply);
    x.number * 0x1_0000_0000 + x.value % 0x1_0000_0000
}
