// What is known of a path's silence.
ghost use Rattle.std.specs.Prelude.{◌≡◌};
ghost use Rattle.stop.specs.Silence.{new_silence};

// A stop: the instant from which the next probe may go, the least gap after it, the gap that the latest one used, the
// instant until which the path is rechecked, and whether the latest slot is owed to a connection.
#[derive(Clone, Copy)]
pub struct Stop {
    pub free: u64,
    pub gap: u64,
    pub used: u64,
    pub until: Option<u64>,
    pub owed: bool,
}

// The stop, while there is one, and the instant of the first probe ever sent into the ring.
#[derive(Clone, Copy)]
pub struct Silence {
    pub stop: Option<Stop>,
    pub quiet: Option<u64>,
}

impl Silence {
    // A path that has sent nothing and is not stopped.
    pub fn new() -> Self
        ensures { result ≡ new_silence }
    {
        Silence {
            stop: None,
            quiet: None,
        }
    }
}
