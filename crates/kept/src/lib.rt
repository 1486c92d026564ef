// What every path keeps, whatever methods are called on it: the claim of a theorem, so that the gate counts it.
#![tactic(auto)]

ghost use Rattle.kept.specs.Kept.{EveryPath};

// After any calls on a new path: ETX within 1 and 100, a proven size within 27 and 65,535, the ring closed up, the late
// list of four places, and the three round trips together.
pub fn every_path()
    ensures { EveryPath }
{}
