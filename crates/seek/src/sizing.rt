// The search's rules on sizes alone: no clock and no identifiers.
ghost use Rattle.std.specs.Prelude.{◌≡◌};
ghost use Rattle.base.specs.Limits.{min_len};
ghost use Rattle.seek.specs.Rules.{proposal_of, lost_with, known_of, rises_of, raised_of, close_of};

use crate::types::SEEK_STEP;
use base::limits::PATH_PROBE_MIN_SIZE;

// The next size to try: full with none lost, else halfway between proven and lost; none once they are close, or full is
// proven.
#[tactic(auto, unfolding(crate::specs::Rules::proposal_of))]
pub fn proposal(lost: u16, proven: u16, full: u16) -> Option<u16>
    ensures { result ≡ proposal_of lost proven full }
{
    if full <= proven {
        None
    } else if lost == 0 {
        Some(full)
    } else if u32::from(proven) + SEEK_STEP < u32::from(lost) {
        Some(proven + (lost - proven) / 2)
    } else {
        None
    }
}

// The lost size once `len` is lost too: the smaller.
pub fn lose(lost: u16, len: u16) -> u16
    ensures { result ≡ lost_with lost len }
{
    if lost == 0 { len } else { lost.min(len) }
}

// What counts as proven: the smallest size where nothing is.
pub fn known(proven: Option<u16>) -> u16
    ensures { result ≡ known_of min_len proven }
{
    proven.unwrap_or(PATH_PROBE_MIN_SIZE)
}

// Whether an acknowledgement at this size raises the proven one.
pub fn rises(proven: Option<u16>, size: u16) -> bool
    ensures { result ≡ rises_of min_len proven size }
{
    size > PATH_PROBE_MIN_SIZE && proven.is_none_or(|len| size > len)
}

// The proven size after an acknowledgement at this size.
pub fn raise(proven: Option<u16>, size: u16) -> Option<u16>
    ensures { result ≡ raised_of min_len proven size }
{
    if rises(proven, size) {
        Some(size)
    } else {
        proven
    }
}

// Whether the search ends: a lost size is held and lies within the step of the proven one.
pub fn ended(lost: u16, proven: u16) -> bool
    ensures { result ≡ close_of lost proven }
{
    lost != 0 && u32::from(lost) <= u32::from(proven) + SEEK_STEP
}
