//! Command lines and what they ask for, as theorems. The functions do nothing: their contracts are the statements.
ghost use Rattle.mail_line.specs.CommandLine.{StaysWithinBounds};
ghost use Rattle.mail_line.specs.Examples.{BitsExamples, NumberExamples, OptionExamples, QueryExamples, RefusedExamples, ReplayExamples, ReportExamples, RingExamples};

/// Lines that are taken, and lines that aren't.
pub fn line_examples()
    ensures options { OptionExamples }
    ensures numbers { NumberExamples }
    ensures ring { RingExamples }
    ensures bits { BitsExamples }
    ensures report { ReportExamples }
    ensures queries { QueryExamples }
    ensures replays { ReplayExamples }
    ensures refused { RefusedExamples }
{}

/// What a line asks for is within its bounds.
pub fn settings_within_bounds()
    ensures { StaysWithinBounds }
{}
