// What a path has measured. A place of an array that is not used is a gap.
ghost use Rattle.std.specs.Prelude.{◌≡◌, refl};
ghost use Rattle.rtt.specs.Samples.{no_sample, is_sample};
ghost use Rattle.rtt.specs.Spans.{no_span, is_span};
ghost use Rattle.rtt.specs.Rtts.{new_rtts};

use crate::marked::Marked;

// The samples that the window keeps.
pub const SAMPLES: usize = 32;

// The spans that the horizon keeps.
pub const SPANS: usize = 8;

// A round trip, and the instant at which it was measured. `used` is a mark and no `Option`, as in ring's `Sent`.
#[derive(Clone, Copy)]
pub struct Sample {
    pub at: u64,
    pub rtt: u64,
    pub used: bool,
}

// The instants of a span's first and latest sample, and the least round trip among its samples.
#[derive(Clone, Copy)]
pub struct Span {
    pub from: u64,
    pub to: u64,
    pub rtt: u64,
    pub used: bool,
}

// The samples of the window, the spans of the horizon, and the latest round trip.
#[derive(Clone, Copy)]
pub struct Rtts {
    pub samples: [Sample; SAMPLES],
    pub spans: [Span; SPANS],
    pub rtt: Option<u64>,
}

impl Sample {
    // A gap.
    pub fn none() -> Self
        ensures { result ≡ no_sample }
    {
        Sample {
            at: 0,
            rtt: 0,
            used: false,
        }
    }
}

impl Span {
    // A gap.
    pub fn none() -> Self
        ensures { result ≡ no_span }
    {
        Span {
            from: 0,
            to: 0,
            rtt: 0,
            used: false,
        }
    }
}

impl Marked for Sample {
    ghost held = { is_sample };

    ghost since = { λ s. s.at };

    ghost trip = { λ s. s.rtt };

    ghost gap = { no_sample };

    fn gap() -> Sample {
        Sample::none()
    }

    fn is_held(&self) -> bool {
        self.used
    }

    fn since(&self) -> u64 {
        self.at
    }

    fn trip(&self) -> u64 {
        self.rtt
    }

    ghost free = { refl };
}

impl Marked for Span {
    ghost held = { is_span };

    ghost since = { λ s. s.from };

    ghost trip = { λ s. s.rtt };

    ghost gap = { no_span };

    fn gap() -> Span {
        Span::none()
    }

    fn is_held(&self) -> bool {
        self.used
    }

    fn since(&self) -> u64 {
        self.from
    }

    fn trip(&self) -> u64 {
        self.rtt
    }

    ghost free = { refl };
}

impl Rtts {
    // A path that has measured nothing.
    pub fn new() -> Self
        ensures { result ≡ new_rtts }
    {
        Rtts {
            samples: [Sample::none(); SAMPLES],
            spans: [Span::none(); SPANS],
            rtt: None,
        }
    }
}
