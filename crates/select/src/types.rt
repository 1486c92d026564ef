// What a choice is made of, and what its functions answer.
ghost use Rattle.std.specs.Prelude.{◌≡◌};
ghost use Rattle.select.specs.Rivals.{no_rival};

use base::types::Refusal;

// The paths of a peer, and so the places of a field.
pub const PATH_MAX_PER_PEER: usize = 8;

// Over what a path runs.
#[derive(Clone, Copy)]
pub enum Medium {
    Ble,
    Wired,
    Wireless,
    Unknown,
}

// What a transport is for.
#[derive(Clone, Copy)]
pub enum Role {
    Never,
    Backup,
    Normal,
    Preferred,
}

// A path that a choice may take, in its place of the field; where `held` is false there is none. Of score, steady, rtt
// and base the mark (scored, steadied, timed, based) says whether there is one: document 01 names this form.
#[derive(Clone, Copy)]
pub struct Rival {
    pub score: f64,
    pub steady: f64,
    pub rtt: u64,
    pub base: u64,
    pub index: usize,
    pub tier: u8,
    pub held: bool,
    pub scored: bool,
    pub steadied: bool,
    pub timed: bool,
    pub based: bool,
    pub preferred: bool,
    pub pinned: bool,
    pub fits: bool,
    pub medium: Medium,
}

impl Rival {
    // No rival.
    pub fn none() -> Self
        ensures { result ≡ no_rival }
    {
        Rival {
            score: 0.0,
            steady: 0.0,
            rtt: 0,
            base: 0,
            index: 0,
            tier: 0,
            held: false,
            scored: false,
            steadied: false,
            timed: false,
            based: false,
            preferred: false,
            pinned: false,
            fits: false,
            medium: Medium::Ble,
        }
    }
}
