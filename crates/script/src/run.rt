// A whole script: its calls one after the other on a path that starts anew.
ghost use Rattle.std.specs.Prelude.{◌≡◌, length};
ghost use Rattle.script.specs.Run.{call_from, script_number, script_out};

use crate::calls::call;
use crate::types::*;
use base::types::Refusal;
use live::types::Liveness;

// The call whose six numbers stand at the front of the bytes.
fn call_from(part: &[u8]) -> Call
    ensures { result ≡ call_from part.now }
{
    Call {
        op: octets::get(part, 0, 8),
        a: octets::get(part, 8, 8),
        b: octets::get(part, 16, 8),
        c: octets::get(part, 24, 8),
        d: octets::get(part, 32, 8),
        e: octets::get(part, 40, 8),
    }
}

// Carries out a script and writes its answers and the image of the path after it; or says 13 or 16, and writes nothing.
pub fn run_script(script: &[u8], out: &mut [u8]) -> u64
    ensures { (result ≡ script_number script.now (length out.old))
        × (out.new ≡ script_out script.now out.old) }
{
    if script.len() % 48 != 0 {
        return Refusal::Cut.number();
    }
    if out.len() < 1800 || out.len() - 1800 < script.len() {
        return Refusal::Lent.number();
    }
    let mut path = Liveness::new();
    let calls = script.len() / 48;
    for i in 0..calls {
        let at = 48 * i;
        let done = call(path, call_from(&script[at..]));
        octets::put_words(&mut out[at..], &done.words);
        path = done.path;
    }
    image::write_image(&mut out[48 * calls..], path);
    0
}
