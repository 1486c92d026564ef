// The largest frame that a path carries.
#![tactic(auto)]

ghost use Rattle.std.specs.Prelude.{◌≡◌};
ghost use Rattle.select.specs.Carried.{heeded_of, carried_frame};

use base::limits::MAX_LEN;
use base::types::Refusal;

// The outer header of an established frame.
const ESTABLISHED_HEADER_SIZE: u32 = 16;

// The inner header, with the type of the message.
const INNER_HEADER_SIZE: u32 = 5;

// The tag that seals it.
const TAG_SIZE: u32 = 16;

// The bytes of a frame around a path message, whose type byte the inner header has too.
pub const FRAME_OVERHEAD: u32 = ESTABLISHED_HEADER_SIZE + (INNER_HEADER_SIZE - 1) + TAG_SIZE;

// Whether the size that a path proves bounds the frames it carries: on a connectionless transport.
pub fn heeded(oriented: bool) -> bool
    ensures { result ≡ heeded_of oriented }
{
    !oriented
}

// The largest frame: the link's, or that of the proven size where it is smaller and heeded.
#[tactic(auto, unfolding(select::specs::Carried::carried_frame))]
pub fn carried(link: u32, proven: Option<u16>, oriented: bool) -> Result<u32, Refusal>
    ensures { result ≡ carried_frame link proven oriented }
{
    if MAX_LEN < link {
        return Err(Refusal::Length);
    }
    match proven {
        Some(len) if heeded(oriented) => Ok(link.min(u32::from(len) + FRAME_OVERHEAD)),
        _ => Ok(link),
    }
}
