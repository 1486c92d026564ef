// The refusals.
ghost use Rattle.std.specs.Prelude.{◌≡◌};
ghost use Rattle.base.specs.Refusals.{refusal_number};

// Document 01's refusals, in the order of its table, then document 02's; `refusal_number` in specs/Refusals.antt has
// their numbers.
#[derive(Clone, Copy, Debug, PartialEq, Eq)]
pub enum Refusal {
    Slot,
    Empty,
    Held,
    Flag,
    Length,
    Duration,
    Margin,
    Full,
    Unknown,
    NoSize,
    NoPath,
    Index,
    Cut,
    Map,
    Kind,
    Lent,
    Due,
}

impl Refusal {
    // The number of a refusal in the documents.
    pub fn number(self) -> u64
        ensures { result ≡ refusal_number self }
    {
        match self {
            Refusal::Slot => 1,
            Refusal::Empty => 2,
            Refusal::Held => 3,
            Refusal::Flag => 4,
            Refusal::Length => 5,
            Refusal::Duration => 6,
            Refusal::Margin => 7,
            Refusal::Full => 8,
            Refusal::Unknown => 9,
            Refusal::NoSize => 10,
            Refusal::NoPath => 11,
            Refusal::Index => 12,
            Refusal::Cut => 13,
            Refusal::Map => 14,
            Refusal::Kind => 15,
            Refusal::Lent => 16,
            Refusal::Due => 23,
        }
    }
}
