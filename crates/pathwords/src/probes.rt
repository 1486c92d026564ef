// Rows of probes: a probe, the identifiers; and the ladder's word.
ghost use Rattle.std.specs.Prelude.{◌≡◌, ◌<◌, ◌≤◌, ◌+◌, ◌*◌, cond};
ghost use Rattle.base.specs.Seq.{flag_of};
ghost use Rattle.cells.specs.Cells.{sent_in, ids_in, ladder_in};
ghost use Rattle.cells.specs.Code.{sent_row, ids_row, ladder_word};

use cells::words::*;
use ring::types::*;
use seek::types::Ladder;

// The probe that a row says.
#[tactic(auto, unfolding(cells::specs::Cells::sent_in))]
pub fn sent_in(t: [u64; 4]) -> Sent
    ensures { result ≡ sent_in t }
{
    Sent {
        at: t[0],
        due: t[1],
        probe_id: low(t[2]),
        len: short(t[3]),
        used: 65536 <= t[3],
    }
}

// A length with its mark.
fn marked(len: u16, used: bool) -> u64
    ensures { (result ≡ len + cond used 65536 0) × (len < 65536) }
{
    let n = u64::from(len);
    if used { n + 65536 } else { n }
}

// The row that says a probe.
pub fn sent_row(s: Sent) -> [u64; 4]
    ensures { (result ≡ sent_row s) × (sent_in result ≡ s) }
{
    [s.at, s.due, u64::from(s.probe_id), marked(s.len, s.used)]
}

// The identifiers that a row says.
#[tactic(auto, unfolding(cells::specs::Cells::ids_in))]
pub fn ids_in(t: [u64; 4]) -> Ids
    ensures { result ≡ ids_in t }
{
    Ids {
        next_id: id_in(t[0]),
        answered: id_in(t[1]),
        epoch: id_in(t[2]),
        since: id_in(t[3]),
    }
}

// The row that says the identifiers.
pub fn ids_row(m: Ids) -> [u64; 4]
    ensures { (result ≡ ids_row m) × (ids_in result ≡ m) }
{
    [
        id_word(m.next_id),
        id_word(m.answered),
        id_word(m.epoch),
        id_word(m.since),
    ]
}

// The ladder that a word says.
#[tactic(auto, unfolding(cells::specs::Cells::ladder_in))]
pub fn ladder_in(w: u64) -> Ladder
    ensures { result ≡ ladder_in w }
{
    Ladder {
        last: len_in(w % 131072),
        fallen: 131072 <= w,
    }
}

// A ladder's mark.
fn fall(fallen: bool) -> u64
    ensures { (result ≡ 131072 * flag_of fallen) × (result ≤ 131072) }
{
    if fallen { 131072 } else { 0 }
}

// The word that says the ladder.
pub fn ladder_word(l: Ladder) -> u64
    ensures { (result ≡ ladder_word l) × (ladder_in result ≡ l) }
{
    len_word(l.last) + fall(l.fallen)
}
