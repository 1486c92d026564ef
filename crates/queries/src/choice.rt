// The choice over a record's slots in rows.
ghost use Rattle.std.specs.Prelude.{◌≡◌, map, is_some};
ghost use Rattle.scores.specs.Scores.{score_in};
ghost use Rattle.select.specs.Slim.{slim_of};
ghost use Rattle.rivalrows.specs.Rows.{field_in, row_of};
ghost use Rattle.rules.specs.Step.{rival_of, rivals_at, is_margin};
ghost use Rattle.rows.specs.View.{slot_in};
ghost use Rattle.queries.specs.Choosing.{slot_reply, chosen_of};

use base::missing::*;
use base::types::*;
use rivalrows::{ROW, row_of};
use rowmeasures::*;
use rows::places::ROWS;
use rows::whole::*;
use rules::types::*;
use select::types::*;
use trips::*;

// The slot as a rival, under its number, without its score over the horizon and its base round trip: a choice reads
// neither.
pub fn rival(i: usize, p: &[[u64; 4]; ROWS]) -> Rival
    ensures { result ≡ slim_of (rival_of i (slot_in p.now)) }
{
    let score = scores::score_of(etx(p), min_rtt(p));
    let rtt = trip(p);
    let label = label(p);
    Rival {
        score: score.unwrap_or(0.0),
        steady: 0.0,
        rtt: rtt.unwrap_or(0),
        base: 0,
        index: i,
        tier: select::media::tier(label.role),
        held: used(p),
        scored: score.is_some(),
        steadied: false,
        timed: rtt.is_some(),
        based: false,
        preferred: label.preferred,
        pinned: label.pinned,
        fits: label.fits,
        medium: label.medium,
    }
}

// The rows of the eight slots' rivals, each under its number, as a choice reads them.
fn rival_rows(rec: &[[[u64; 4]; ROWS]; PATH_MAX_PER_PEER]) -> [[u64; ROW]; PATH_MAX_PER_PEER]
    ensures { (result ≡ map row_of (map slim_of (rivals_at 0 (map slot_in rec.now))))
        × (field_in result ≡ map slim_of (rivals_at 0 (map slot_in rec.now))) }
{
    let mut field = [[0; ROW]; PATH_MAX_PER_PEER];
    for i in 0..PATH_MAX_PER_PEER {
        field[i] = row_of(rival(i, &rec[i]));
    }
    field
}

// Whether a margin is finite and at least 1.
pub fn is_margin(m: f64) -> bool
    ensures { result ≡ is_margin m }
{
    (1.0 <= m) & (m < 1.0 / 0.0)
}

// The slot that a choice takes, or its refusal.
pub fn choice_reply(m: Result<usize, Refusal>) -> Result<Reply, Refusal>
    ensures { result ≡ slot_reply m }
{
    Ok(Reply::Chosen(m?))
}

// The answer of a choice, by the bits of its margin.
pub fn chosen(rec: &[[[u64; 4]; ROWS]; PATH_MAX_PER_PEER], span: u64) -> Result<Reply, Refusal>
    ensures { result ≡ chosen_of (map slot_in rec.now) span }
{
    let margin = total::float_of(span);
    if is_margin(margin) {
        let field = rival_rows(rec);
        return choice_reply(choices::words::picked_in(&field, margin));
    }
    Err(Refusal::Margin)
}
