// The worked examples of the rules, on a contract, so that the gate asks for every row of the table.
ghost use Rattle.rules.specs.Examples.{WorkedExamples};

// The table holds: each row follows from the definitions by which the book and the day are proved.
pub fn worked_examples()
    ensures { WorkedExamples }
{}
