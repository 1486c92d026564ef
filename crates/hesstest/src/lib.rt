// The functions of libhesstest.a, for the host that runs the Rust beside ours; no product carries them.
#![tactic(auto)]

ghost use Rattle.std.specs.Prelude.{◌≡◌, length};
ghost use Rattle.rivalrows.specs.Rows.{field_in};
ghost use Rattle.c_choice.specs.Choice.{words_reply};
ghost use Rattle.script.specs.Run.{script_number, script_out};

use c_reply::Reply;
use rivalrows::rival_in;
use select::types::*;

// Carries out a script of calls on a new path, and writes its answers and the path's image into the lent bytes.
#[unsafe(no_mangle)]
pub extern "C" fn hess_script(script: &[u8], out: &mut [u8]) -> u64
    ensures { (result ≡ script_number script.now (length out.old))
        × (out.new ≡ script_out script.now out.old) }
{
    script::run::run_script(script, out)
}

// The rivals of a field in words, by value. Written out, so that none need be stored.
fn field_in(field: &[[u64; 12]; 8]) -> [Rival; PATH_MAX_PER_PEER]
    ensures { result ≡ field_in field.now }
{
    [
        rival_in(&field[0]),
        rival_in(&field[1]),
        rival_in(&field[2]),
        rival_in(&field[3]),
        rival_in(&field[4]),
        rival_in(&field[5]),
        rival_in(&field[6]),
        rival_in(&field[7]),
    ]
}

// The place of the path to take of a field in words, by `choose` over its rivals by value.
#[unsafe(no_mangle)]
pub extern "C" fn hess_choose_rivals(field: &[[u64; 12]; 8], margin: f64) -> Reply
    ensures { result ≡ words_reply field.now margin }
{
    c_choice::of_chosen(choices::choose(field_in(field), margin))
}
