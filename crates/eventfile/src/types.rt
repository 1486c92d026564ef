// What is read from an event file.
use base::types::Refusal;
use rules::types::Event;

// What stands at a place of a file: nothing more; an event, and the place after its record; or a refusal, with the kind
// byte, 0 if it was not read.
// Three answers and no `Result<Option<..>, ..>`: each reader but `record_at` answers all three in a type of its own, so
// `?` would serve one place, and `Ok(Some((event, next)))` and `Err((why, kind))` would say less than these names.
#[derive(Clone, Copy)]
pub enum Parse {
    End,
    Event(Event, usize),
    Refused(Refusal, u8),
}

// Where the fields of a record begin, counted from its first byte, and the bytes of the record.
#[derive(Clone, Copy)]
pub struct Layout {
    pub span: usize,
    pub id: usize,
    pub len: usize,
    pub acked: usize,
    pub flags: usize,
    pub size: usize,
}
