// What a peer record is made of, what happens to it, and what is answered.
ghost use Rattle.std.specs.Prelude.{◌≡◌};
ghost use Rattle.rules.specs.Event.{kind_of};

use base::types::Refusal;
use live::types::Liveness;
use select::types::*;

// Four durations in nanoseconds.
#[derive(Clone, Copy)]
pub struct Settings {
    pub cap: u64,
    pub gap: u64,
    pub window: u64,
    pub horizon: u64,
}

// One event, with the fields of a file's record: `span` is a due instant, an RTT, a timeout or a margin's bits, `id` a
// draw or an identifier. A field that the kind does not have is not read.
#[derive(Clone, Copy)]
pub struct Event {
    pub now: u64,
    pub span: u64,
    pub id: u32,
    pub len: u32,
    pub acked: u32,
    pub kind: u8,
    pub slot: u8,
    pub flags: u8,
}

// The fifteen kinds of event, in the order of their numbers.
#[derive(Clone, Copy, Debug, PartialEq, Eq)]
pub enum Kind {
    Open,
    Probe,
    Answer,
    Poll,
    Sample,
    Fold,
    Prove,
    Search,
    Judge,
    Data,
    Fresh,
    Thaw,
    Sweep,
    Close,
    Choose,
}

impl TryFrom<u8> for Kind {
    type Error = Refusal;

    ghost try_from_gives = { λ n r. r ≡ kind_of n };

    // The kind of a number; 15 for one that has none.
    fn try_from(n: u8) -> Result<Kind, Refusal> {
        match n {
            1 => Ok(Kind::Open),
            2 => Ok(Kind::Probe),
            3 => Ok(Kind::Answer),
            4 => Ok(Kind::Poll),
            5 => Ok(Kind::Sample),
            6 => Ok(Kind::Fold),
            7 => Ok(Kind::Prove),
            8 => Ok(Kind::Search),
            9 => Ok(Kind::Judge),
            10 => Ok(Kind::Data),
            11 => Ok(Kind::Fresh),
            12 => Ok(Kind::Thaw),
            13 => Ok(Kind::Sweep),
            14 => Ok(Kind::Close),
            15 => Ok(Kind::Choose),
            _ => Err(Refusal::Kind),
        }
    }
}

// The answer of an event: an identifier; in time, late, or the search probe's; a number of probes; lost now, or not; a
// slot; nothing to say; or a refusal.
#[derive(Clone, Copy)]
pub enum Reply {
    Id(u32),
    InTime,
    Late,
    Search,
    Count(u32),
    Lost,
    Waits,
    Chosen(usize),
    Nothing,
}

// The weights of an open's flag bits: its role's lower bit, pinned, fits, preferred; its medium is the lowest two.
pub const ROLE_WEIGHT: u64 = 4;

pub const PINNED_WEIGHT: u64 = 16;

pub const FITS_WEIGHT: u64 = 32;

pub const PREFERRED_WEIGHT: u64 = 64;

// What an open says of its path: its full size and its flags.
#[derive(Clone, Copy)]
pub struct Label {
    pub full: u16,
    pub pinned: bool,
    pub fits: bool,
    pub preferred: bool,
    pub medium: Medium,
    pub role: Role,
}

// A slot, empty or with a path and what its open said of it. `used` is a mark and no `Option`, as in ring's `Sent`.
#[derive(Clone, Copy)]
pub struct Slot {
    pub path: Liveness,
    pub label: Label,
    pub used: bool,
}

// The peer record.
#[derive(Clone, Copy)]
pub struct Record {
    pub settings: Settings,
    pub slots: [Slot; 8],
}

// What an event makes of its slot, and its answer.
#[derive(Clone, Copy)]
pub struct Turn {
    pub slot: Slot,
    pub reply: Result<Reply, Refusal>,
}

// What an event makes of the record, and its answer.
#[derive(Clone, Copy)]
pub struct Stepped {
    pub next: Record,
    pub reply: Result<Reply, Refusal>,
}

// What a poll makes of a path, and how many probes lapsed.
#[derive(Clone, Copy)]
pub struct Polling {
    pub path: Liveness,
    pub lapses: u32,
}
