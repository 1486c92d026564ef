// The choice among rivals: rivals as bytes and as words.
ghost use Rattle.std.specs.Prelude.{◌≡◌, length};
ghost use Rattle.select.specs.Media.{tier_of, quicker_of, medium_of, role_of};
ghost use Rattle.c_choice.specs.Choice.{choose_reply, words_reply, best_reply, best_out, held_from, waits_from, hold_reply};
ghost use Rattle.c_choice.specs.Choice.{carried_reply};

use c_reply::Reply;

// The place of the path that `choose` takes of a field.
#[unsafe(no_mangle)]
pub extern "C" fn hess_choose(field: &[u8], margin: f64) -> Reply
    ensures { result ≡ choose_reply field.now margin }
{
    c_choice::choose(field, margin)
}

// The same of a field in words.
#[unsafe(no_mangle)]
pub extern "C" fn hess_choose_words(field: &[[u64; 12]; 8], margin: f64) -> Reply
    ensures { result ≡ words_reply field.now margin }
{
    c_choice::choose_words(field, margin)
}

// Writes whether there is a best score, and its bits.
#[unsafe(no_mangle)]
pub extern "C" fn hess_best(field: &[u8], out: &mut [u8]) -> u64
    ensures { (result ≡ best_reply field.now (length out.old))
        × (out.new ≡ best_out field.now out.old) }
{
    c_choice::best(field, out)
}

// Whether a change on score to the first rival from the second is held.
#[unsafe(no_mangle)]
pub extern "C" fn hess_held(pair: &[u8], margin: f64) -> Reply
    ensures { result ≡ held_from pair.now margin }
{
    c_choice::held(pair, margin)
}

// Whether a change for a medium to the first rival from the second is held.
#[unsafe(no_mangle)]
pub extern "C" fn hess_waits(pair: &[u8], margin: f64) -> Reply
    ensures { result ≡ waits_from pair.now margin }
{
    c_choice::waits(pair, margin)
}

// Whether a hold from `at` holds at `now` after so many reports.
#[unsafe(no_mangle)]
pub extern "C" fn hess_hold(at: u64, reports: u8, now: u64, dwell: u64) -> Reply
    ensures { result ≡ hold_reply at reports now dwell }
{
    c_choice::hold(at, reports, now, dwell)
}

// The tier of a role by its number.
#[unsafe(no_mangle)]
pub extern "C" fn hess_tier(role: u64) -> u64
    ensures { result ≡ tier_of (role_of role) }
{
    c_choice::tier(role)
}

// Whether a medium is quicker than another, by their numbers.
#[unsafe(no_mangle)]
pub extern "C" fn hess_quicker(a: u64, b: u64) -> bool
    ensures { result ≡ quicker_of (medium_of a) (medium_of b) }
{
    c_choice::quicker(a, b)
}

// The largest frame that a path carries; 5 for a proven size, if held, above 65,535.
#[unsafe(no_mangle)]
pub extern "C" fn hess_carried(link: u32, held: bool, proven: u32, oriented: bool) -> Reply
    ensures { result ≡ carried_reply link held proven oriented }
{
    c_choice::carried(link, held, proven, oriented)
}
