// The choice among rivals, as C calls it: rivals as bytes and as words.
#![tactic(auto)]

ghost use Rattle.std.specs.Prelude.{◌≡◌, length, [], ◌∷◌};
ghost use Rattle.octets.specs.Octets.{over, words_of};
ghost use Rattle.select.specs.Media.{tier_of, quicker_of, medium_of, role_of};
ghost use Rattle.c_choice.specs.Choice.{chosen_reply, words_reply, choose_reply, lent_number, best_reply};
ghost use Rattle.c_choice.specs.Choice.{best_out, held_reply, pair_from, held_from, waits_from, reports_of, hold_reply};
ghost use Rattle.c_choice.specs.Choice.{cost_reply, sized_reply, carried_reply};

use base::limits::MAX_LEN;
use base::missing::tag;
use base::types::*;
use c_reply::*;
use fields::{FIELD_LEN, PAIR_LEN, RIVAL_LEN, rival_from};
use hold::Hold;
use rivalrows::ROW;
use select::types::*;
use total::etx_bits;

// The place chosen, or the refusal.
pub fn of_chosen(answer: Result<usize, Refusal>) -> Reply
    ensures { result ≡ chosen_reply answer }
{
    Reply::from(answer.map(|n| n as u64))
}

// The place of the path that `choose` takes of a field.
#[tactic(auto, unfolding(crate::specs::Choice::choose_reply))]
pub fn choose(field: &[u8], margin: f64) -> Reply
    ensures { result ≡ choose_reply field.now margin }
{
    if field.len() != FIELD_LEN {
        return refuse(Refusal::Cut);
    }
    let rows = fields::rows_from(field);
    of_chosen(choices::words::choose_in(&rows, margin))
}

// The same of a field in words.
#[tactic(auto, unfolding(crate::specs::Choice::words_reply))]
pub fn choose_words(field: &[[u64; ROW]; PATH_MAX_PER_PEER], margin: f64) -> Reply
    ensures { result ≡ words_reply field.now margin }
{
    of_chosen(choices::words::choose_in(field, margin))
}

// Writes two numbers into the lent bytes, or says 16 and writes nothing.
fn put_best(out: &mut [u8], tag: u64, bits: u64) -> u64
    ensures { (result ≡ lent_number (length out.old))
        × (out.new ≡ over (words_of (tag ∷ bits ∷ [])) out.old) }
{
    if octets::put_words(out, &[tag, bits]) {
        return 0;
    }
    Refusal::Lent.number()
}

// Writes whether there is a best score, and its bits.
pub fn best(field: &[u8], out: &mut [u8]) -> u64
    ensures { (result ≡ best_reply field.now (length out.old))
        × (out.new ≡ best_out field.now out.old) }
{
    if field.len() != FIELD_LEN {
        return Refusal::Cut.number();
    }
    let rows = fields::rows_from(field);
    match choices::words::best_in(&rows) {
        Ok(found) => put_best(out, tag(found), found.map_or(0, etx_bits)),
        Err(why) => why.number(),
    }
}

// Whether a change is held, or the refusal.
fn of_held(answer: Result<bool, Refusal>) -> Reply
    ensures { result ≡ held_reply answer }
{
    Reply::from(answer.map(u64::from))
}

// The rivals of a pair; 13 for bytes that are not one. Always inlined, so that no rival need be stored.
#[tactic(auto, unfolding(crate::specs::Choice::pair_from))]
#[inline(always)]
fn pair_from(pair: &[u8]) -> Result<(Rival, Rival), Refusal>
    ensures { result ≡ pair_from pair.now }
{
    if pair.len() != PAIR_LEN {
        return Err(Refusal::Cut);
    }
    Ok((rival_from(pair), rival_from(&pair[RIVAL_LEN..])))
}

// Whether a change on score to the first rival from the second is held.
#[tactic(auto, unfolding(crate::specs::Choice::held_from, crate::specs::Choice::pair_from))]
pub fn held(pair: &[u8], margin: f64) -> Reply
    ensures { result ≡ held_from pair.now margin }
{
    of_held(pair_from(pair).and_then(|(to, from)| hold::held(to, from, margin)))
}

// Whether a change for a medium to the first rival from the second is held.
#[tactic(auto, unfolding(crate::specs::Choice::waits_from, crate::specs::Choice::pair_from))]
pub fn waits(pair: &[u8], margin: f64) -> Reply
    ensures { result ≡ waits_from pair.now margin }
{
    of_held(pair_from(pair).and_then(|(to, from)| hold::waits(to, from, margin)))
}

// A hold after so many reports.
fn reported(hold: Hold, reports: u8) -> Hold
    ensures { result ≡ reports_of reports hold }
{
    let mut now = hold;
    for _ in 0..reports {
        now = now.report();
    }
    now
}

// Whether a cost is held, or the refusal.
fn of_cost(answer: Result<Option<f64>, Refusal>) -> Reply
    ensures { result ≡ cost_reply answer }
{
    Reply::from(answer.map(tag))
}

// Whether a hold from `at` holds at `now` after so many reports.
#[tactic(auto, unfolding(crate::specs::Choice::hold_reply))]
pub fn hold(at: u64, reports: u8, now: u64, dwell: u64) -> Reply
    ensures { result ≡ hold_reply at reports now dwell }
{
    let hold = reported(Hold::new(1.0, at), reports);
    of_cost(hold.held(now, dwell))
}

// The tier of a role by its number.
pub fn tier(role: u64) -> u64
    ensures { result ≡ tier_of (role_of role) }
{
    u64::from(select::media::tier(select::media::role_of(role)))
}

// Whether a medium is quicker than another, by their numbers.
pub fn quicker(a: u64, b: u64) -> bool
    ensures { result ≡ quicker_of (medium_of a) (medium_of b) }
{
    select::media::quicker(select::media::medium_of(a), select::media::medium_of(b))
}

// A frame's bytes, or the refusal.
fn of_size(answer: Result<u32, Refusal>) -> Reply
    ensures { result ≡ sized_reply answer }
{
    Reply::from(answer.map(u64::from))
}

// The largest frame that a path carries; 5 for a proven size, if held, above 65,535.
#[tactic(auto, unfolding(crate::specs::Choice::carried_reply))]
pub fn carried(link: u32, held: bool, proven: u32, oriented: bool) -> Reply
    ensures { result ≡ carried_reply link held proven oriented }
{
    if !held {
        return of_size(carry::carried(link, None, oriented));
    }
    if MAX_LEN < proven {
        return refuse(Refusal::Length);
    }
    of_size(carry::carried(link, Some(proven as u16), oriented))
}
