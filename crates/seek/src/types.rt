// The state of the size search and of the ladder, and what the search's steps answer.
ghost use Rattle.std.specs.Prelude.{◌≡◌};
ghost use Rattle.seek.specs.Search.{new_seek};

// The search ends once the largest size proven and the smallest lost lie within so many bytes.
pub const SEEK_STEP: u32 = 32;

// How long a search that ended waits before it starts again, in nanoseconds: 600 s.
pub const SEEK_RAISE: u64 = 600_000_000_000;

// A search: with a probe out its send instant, else the next try (none: at once); its identifier; its length, 0 with
// none out; the smallest size lost, 0 with none lost: the rules of specs/Rules.antt read a size of 0 as none.
#[derive(Clone, Copy)]
pub struct Seek {
    pub at: Option<u64>,
    pub probe_id: u32,
    pub len: u16,
    pub lost: u16,
}

impl Seek {
    // A search not started.
    pub fn new() -> Self
        ensures { result ≡ new_seek }
    {
        Seek {
            at: None,
            probe_id: 0,
            len: 0,
            lost: 0,
        }
    }
}

// The search beside the proven size, which outlasts it.
#[derive(Clone, Copy)]
pub struct Sizes {
    pub seek: Seek,
    pub proven: Option<u16>,
}

// The last size sent in this state, and whether a probe above the smallest size has lapsed in it.
#[derive(Clone, Copy)]
pub struct Ladder {
    pub last: Option<u16>,
    pub fallen: bool,
}

// Of an answer: the search probe's length if it was that probe's, and the sizes after it.
#[derive(Clone, Copy)]
pub struct Settled {
    pub sizes: Sizes,
    pub len: Option<u16>,
}

// Of an acknowledgement: the sizes after it, and whether the proven size rose. It, the judgement and the proof are
// three types, since the flag's name says what it means.
#[derive(Clone, Copy)]
pub struct Proved {
    pub sizes: Sizes,
    pub raised: bool,
}

// Of a judgement: the sizes after it, and whether the search probe was lost now.
#[derive(Clone, Copy)]
pub struct Judged {
    pub sizes: Sizes,
    pub lost: bool,
}

// Of a size proven by a probe of the ring: the sizes after it, and whether the proven size changed.
#[derive(Clone, Copy)]
pub struct Proving {
    pub sizes: Sizes,
    pub changed: bool,
}
