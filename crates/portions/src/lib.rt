// Event files as they come, in portions: a session over them, and what it writes.
#![tactic(auto)]

ghost use Rattle.session.specs.Portions.{PortionsHold};

pub mod calls;
pub mod feed;
pub mod held;
pub mod whole;

// What portions of any lengths give is what all bytes give.
pub fn portions()
    ensures { PortionsHold }
{}
