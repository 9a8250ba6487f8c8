// Worked examples, as one theorem about the definitions that the contracts of the calls cite. There is no code but the
// function that names it.
#![tactic(auto)]

ghost use Rattle.worked.specs.Examples.{WorkedExamples};

// Every row of the table of worked examples is what its job answers.
pub fn worked_examples_hold() -> u8
    ensures { WorkedExamples }
{
    0
}
