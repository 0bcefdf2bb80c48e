// The worked examples, as tables of theorems about the definitions.
ghost use Rattle.theory.specs.Examples.{Table};
ghost use Rattle.theory.specs.RefusalExamples.{RefusalTable};

// Graphs, with their stable colours, their leaves and their forms.
pub fn worked_examples()
    ensures { Table }
{}

// Refusals, by number and place.
pub fn worked_refusals()
    ensures { RefusalTable }
{}
