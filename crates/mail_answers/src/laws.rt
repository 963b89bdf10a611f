//! Worked examples of the definitions, worked out by hand. The functions do nothing: their contracts are the statements.
ghost use Rattle.mail_answers.specs.Examples.{HitsExample, WithoutExample, CompleteExample, NeedsExample, SealedExample, SentExample, PartExample, SomeExample, MiscountedExample};
ghost use Rattle.mail_answers.specs.Examples.{NumbersExample, DidReadExample, DidWriteExample, DidMeetSealedExample};

use mail_query::laws::truth_by_cases;

/// Which of two lists a query holds of.
pub fn hits_examples()
    ensures word { HitsExample }
    ensures without { WithoutExample }
{
    truth_by_cases();
}

/// When answers can be read from an index.
pub fn complete_examples()
    ensures complete { CompleteExample }
    ensures needs { NeedsExample }
    ensures is_sealed { SealedExample }
{}

/// What an attempt did that reads the messages of keys.
pub fn asking_examples()
    ensures numbers { NumbersExample }
    ensures read { DidReadExample }
    ensures wrote { DidWriteExample }
    ensures met_sealed { DidMeetSealedExample }
{}

/// How much of a line was sent.
pub fn sent_examples()
    ensures all { SentExample }
    ensures part { PartExample }
    ensures some { SomeExample }
    ensures miscounted { MiscountedExample }
{}
