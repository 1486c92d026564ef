// A list of events in words, with the answers and the standings that it is to give: four settings as a file has them,
// then its calls. A call has 40 bytes: the four words of an event, and the word of its answer. The standings have 51
// bytes for each slot.
ghost use Rattle.std.specs.Prelude.{◌≡◌, [], ◌∷◌, map, get_or};
ghost use Rattle.replay.specs.Replay.{alike};
ghost use Rattle.rules.specs.Rules.{empty_slot};
ghost use Rattle.rules.specs.Step.{step, run};
ghost use Rattle.rows.specs.View.{slot_in};
ghost use Rattle.peer.specs.Record.{record_in, AreCoded, Steps};
ghost use Rattle.caselist.specs.Lists.{words_in, call_event, whole_calls, answers_agree, slot_told};
ghost use Rattle.caselist.specs.Lists.{standings_agree, list_agrees};

use rows::places::ROWS;
use select::types::PATH_MAX_PER_PEER;

// The four words at the front of the bytes.
fn words(b: &[u8]) -> [u64; 4]
    ensures { result ≡ words_in b.now }
{
    [
        octets::get(b, 0, 8),
        octets::get(b, 8, 8),
        octets::get(b, 16, 8),
        octets::get(b, 24, 8),
    ]
}

// One call on a record in words: whether its answer is the word that stands behind its event.
fn call_agrees(t: &[u64; 4], rec: &mut [[[u64; 4]; ROWS]; PATH_MAX_PER_PEER], b: &[u8]) -> bool
    ensures { let e = call_event b.now in let from = record_in t.now rec.old in
        (result ≡ answers_agree from (b.now ∷ []))
        × Steps t.now rec.old rec.new (step from e).reply e }
{
    let w = words(b);
    let given = octets::get(b, 32, 8);
    let told = peer::record::tell(t, rec, &w);
    told == given
}

// The calls that lie whole within the bytes, on a record in words: whether each is answered with its word. Words that
// were the encoder's stay so.
fn calls_agree(t: &[u64; 4], rec: &mut [[[u64; 4]; ROWS]; PATH_MAX_PER_PEER], s: &[u8]) -> bool
    ensures { let from = record_in t.now rec.old in
        (result ≡ answers_agree from (whole_calls s.now))
        × (record_in t.now rec.new ≡ run from (map call_event (whole_calls s.now)))
        × (AreCoded rec.old → AreCoded rec.new) }
{
    let n = s.len() / 40;
    let mut same = true;
    for i in 0..n {
        let p = 40 * i;
        let one = call_agrees(t, rec, &s[p..p + 40]);
        same &= one;
    }
    same
}

// Whether these bytes are what a slot's standing leaves of 51 zeros; a slot above 7 is empty.
fn slot_agrees(rec: &[[[u64; 4]; ROWS]; PATH_MAX_PER_PEER], slot: u8, given: &[u8]) -> bool
    ensures { result ≡ alike (slot_told (get_or (map slot_in rec.now) slot empty_slot)) given.now }
{
    let mut out = [0u8; 51];
    let _ = queries::standings::standing(rec, slot, &mut out);
    check::same(&out, given)
}

// Whether the standings of the eight slots are these bytes.
fn standings_agree(rec: &[[[u64; 4]; ROWS]; PATH_MAX_PER_PEER], given: &[u8]) -> bool
    ensures { result ≡ standings_agree (map slot_in rec.now) given.now }
{
    if given.len() != 408 {
        return false;
    }
    let mut same = true;
    for i in 0..8u8 {
        let p = 51 * (i as usize);
        let one = slot_agrees(rec, i, &given[p..p + 51]);
        same &= one;
    }
    same
}

// Whether a list's settings are allowed, each of its calls on a new record is answered with its word, and the standings
// after them are these bytes.
pub fn list_agrees(told: &[u8], given: &[u8]) -> bool
    ensures { result ≡ list_agrees told.now given.now }
{
    if told.len() < 32 {
        return false;
    }
    let word = [0u64; 4];
    let path = [word; ROWS];
    let mut t = [0u64; 4];
    let mut rec = [path; PATH_MAX_PER_PEER];
    let reply = peer::record::new(&mut t, &mut rec, eventfile::settings_from(told));
    if refusals::reply::number_of(reply) == 0 {
        let answers = calls_agree(&t, &mut rec, &told[32..]);
        let standings = standings_agree(&rec, given);
        return answers & standings;
    }
    false
}
