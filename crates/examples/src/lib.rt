// Small lists of events and the answers that documents 01 and 02 name: what the rules compute.
#![tactic(auto)]

ghost use Rattle.rules.specs.Answers.{AllRight};
ghost use Rattle.examples.specs.Lists.{examples};
ghost use Rattle.examples.specs.Changes.{changes};

// Each list gets its answers.
pub fn examples()
    ensures { AllRight examples }
{}

// And so do those of document 02's requests.
pub fn changes()
    ensures { AllRight changes }
{}
