// The sizes that a probing path steps down, once a probe above the smallest size has lapsed.
#![tactic(auto)]

ghost use Rattle.std.specs.Prelude.{◌≡◌};
ghost use Rattle.std.specs.List.{find};
ghost use Rattle.seek.specs.Ladder.{fits_of, rung_of, ladder_size};

use base::limits::PATH_PROBE_MIN_SIZE;
use seek::types::Ladder;

// The steps of the ladder below full, 3/4 and 1/2: the numerator and the denominator of each.
const LADDER: [(u32, u32); 2] = [(3, 4), (1, 2)];

// Whether a size is below the last one and above the smallest.
fn fits(len: u16, last: u16) -> bool
    ensures { result ≡ fits_of last len }
{
    len < last && len > PATH_PROBE_MIN_SIZE
}

// The first of some sizes that fits.
fn first_fit(sizes: &[u16], last: u16) -> Option<u16>
    ensures { result ≡ find (fits_of last) sizes.now }
{
    sizes.iter().copied().find(|len| fits(*len, last))
}

// The size after one of `last` bytes: the first of full, 3/4 and 1/2 that fits, else the smallest; full after the
// smallest.
#[tactic(auto, unfolding(seek::specs::Ladder::rung_of))]
pub fn rung(full: u16, last: u16) -> u16
    ensures { result ≡ rung_of full last }
{
    if last <= PATH_PROBE_MIN_SIZE {
        return full;
    }
    let [most, half] = LADDER;
    let wide = u32::from(full);
    let sizes = [
        full,
        (wide * most.0 / most.1) as u16,
        (wide * half.0 / half.1) as u16,
    ];
    first_fit(&sizes, last).unwrap_or(PATH_PROBE_MIN_SIZE)
}

// The size of the next probe: full unless fallen with a last size.
#[tactic(auto, unfolding(seek::specs::Ladder::ladder_size))]
pub fn size(l: Ladder, full: u16) -> u16
    ensures { result ≡ ladder_size l full }
{
    match l.last {
        Some(last) if l.fallen => rung(full, last),
        _ => full,
    }
}
