// The worked examples of the documents, proved of the definitions that the contracts of the other crates use.
#![tactic(auto)]

ghost use Rattle.examples.specs.Worked.{Worked};

pub fn examples_stand()
    ensures { Worked }
{}
