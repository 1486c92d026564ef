// The twelve marked figures of document 01: what the definitions compute is what the document expects.
#![tactic(auto)]

ghost use Rattle.std.specs.Prelude.{◌≡◌};
ghost use Rattle.figures.specs.Figures.{figures, expected};

// The computed list of the figures is the expected one.
pub fn twelve_figures()
    ensures { figures ≡ expected }
{}
