// What a session is, and what its calls answer.

// What a session awaits: the settings, a record of the file, or nothing more.
#[derive(Clone, Copy)]
pub enum Phase {
    Settings,
    Running,
    Over,
}

// What is known between two portions of a file, beside the record in its lent words: the number of the file's next
// record, and the phase.
#[derive(Clone, Copy)]
pub struct Mark {
    pub number: u64,
    pub phase: Phase,
}

// What a call leaves beside these words: the mark, how many bytes it read and wrote, and whether it stopped for want of
// room.
#[derive(Clone, Copy)]
pub struct Call {
    pub mark: Mark,
    pub place: usize,
    pub wrote: usize,
    pub full: bool,
}
