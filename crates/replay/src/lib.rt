// Records of a fixed list of the Rust's answers: a record begins with its inputs, and ends with the answers that the
// unchanged Rust gave to them. It agrees where what the C functions call gives the same.
#![tactic(auto)]

ghost use Rattle.std.specs.Prelude.{◌≡◌, ◌&&◌};
ghost use Rattle.replay.specs.Replay.{is_reply, script_agrees, choose_agrees, best_agrees, pair_agrees, counted_of};

use c_reply::Reply;

// Whether a reply is this number and this value.
fn replies(reply: Reply, number: u64, value: u64) -> bool
    ensures { result ≡ is_reply reply number value }
{
    (reply.number == number) & (reply.value == value)
}

// Whether 64 calls give the 64 answers and the image of the path that stand behind them.
pub fn script_agrees(bytes: &[u8]) -> bool
    ensures { result ≡ script_agrees bytes.now }
{
    if bytes.len() != 7944 {
        return false;
    }
    let mut out = [0u8; 4872];
    let number = script::run::run_script(&bytes[0..3072], &mut out);
    let same = check::same(&out, &bytes[3072..]);
    (number == 0) & same
}

// Whether `choose` of a field and a margin gives the number and the value that stand behind them.
fn choose_agrees(bytes: &[u8]) -> bool
    ensures { result ≡ choose_agrees bytes.now }
{
    if bytes.len() != 816 {
        return false;
    }
    let margin = total::float_of(octets::get(bytes, 768, 8));
    let chosen = c_choice::choose(&bytes[0..768], margin);
    replies(
        chosen,
        octets::get(bytes, 776, 8),
        octets::get(bytes, 784, 8),
    )
}

// Whether `best` of a field gives the number that stands behind the reply of `choose`, and writes the two numbers
// behind that.
fn best_agrees(bytes: &[u8]) -> bool
    ensures { result ≡ best_agrees bytes.now }
{
    if bytes.len() != 816 {
        return false;
    }
    let mut out = [0u8; 16];
    let number = c_choice::best(&bytes[0..768], &mut out);
    let same = check::same(&out, &bytes[800..]);
    (number == octets::get(bytes, 792, 8)) & same
}

// Whether a pair and a margin give the replies of `held` and `waits` that stand behind them.
pub fn pair_agrees(bytes: &[u8]) -> bool
    ensures { result ≡ pair_agrees bytes.now }
{
    if bytes.len() != 232 {
        return false;
    }
    let margin = total::float_of(octets::get(bytes, 192, 8));
    let held = c_choice::held(&bytes[0..192], margin);
    let waits = c_choice::waits(&bytes[0..192], margin);
    let first = replies(held, octets::get(bytes, 200, 8), octets::get(bytes, 208, 8));
    let second = replies(
        waits,
        octets::get(bytes, 216, 8),
        octets::get(bytes, 224, 8),
    );
    first & second
}

// Whether both replies of a field are as they stand behind it.
pub fn field_agrees(bytes: &[u8]) -> bool
    ensures { result ≡ (choose_agrees bytes.now && best_agrees bytes.now) }
{
    choose_agrees(bytes) & best_agrees(bytes)
}

// How many records agree after one more, modulo 2^64.
pub fn counted(equal: u64, agrees: bool) -> u64
    ensures { result ≡ counted_of equal agrees }
{
    if agrees { equal.wrapping_add(1) } else { equal }
}
