//! Worked examples and laws, each the contract of a function that does nothing at run time.
ghost use Rattle.ring_script.specs.Laws.{BadIsApart, BadIsOne, PrintedIsReadAgain, PrintedSaysAgain, ScriptsAgree, ScriptsMayBePrinted, ScriptsOpen};
ghost use Rattle.ring_script.specs.Examples.{PrintedExample, LinesExample, TokensExample, NumberExample, NoStepExample, ScriptExample, ScriptTextExample, RunTextExample, NoStepPrintedExample};

/// The text of a trace of two answers, and of a script.
pub fn text_examples()
    ensures trace { PrintedExample }
    ensures script { ScriptTextExample }
    ensures runs { RunTextExample }
    ensures no_step { NoStepPrintedExample }
{}

/// The lines of a text, the tokens of a line, and which tokens are numbers.
pub fn line_examples()
    ensures lines { LinesExample }
    ensures tokens { TokensExample }
    ensures number { NumberExample }
    ensures no_step { NoStepExample }
{}

/// A script of three lines.
pub fn script_example()
    ensures { ScriptExample }
{}

/// A world may be opened with the setup of a script.
pub fn scripts_open()
    ensures { ScriptsOpen }
{}

/// A text is read in one way: as a script, with one setup and one list of events, or by its first line that isn't one of a script.
pub fn scripts_agree()
    ensures read_once { ScriptsAgree }
    ensures apart { BadIsApart }
    ensures one { BadIsOne }
{}

/// A script that is printed says the same setup and the same requests again, and is read so. What a script says may be printed.
pub fn printed_scripts_agree()
    ensures may { ScriptsMayBePrinted }
    ensures says { PrintedSaysAgain }
    ensures read { PrintedIsReadAgain }
{}
