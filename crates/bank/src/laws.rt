//! Worked examples of the definitions of `specs/`, each the contract of a function that does nothing.
ghost use Rattle.bank.specs.Examples.{SumsExample, BankExample, NoBankExample, OrderExample, TransferredExample, UncountedExample};
ghost use Rattle.bank.specs.Examples.{AllowedExample, ShortExample, SpentExample, AuditExample, PartExample, TalliesExample};

/// The money in a bank, and which memories are one.
pub fn bank_examples()
    ensures sums { SumsExample }
    ensures bank { BankExample }
    ensures no_bank { NoBankExample }
{}

/// A transfer, and what stands against one.
pub fn transfer_examples()
    ensures order { OrderExample }
    ensures transferred { TransferredExample }
    ensures uncounted { UncountedExample }
    ensures allowed { AllowedExample }
    ensures short { ShortExample }
    ensures spent { SpentExample }
{}

/// What an audit reads, and what tellers count.
pub fn report_examples()
    ensures audit { AuditExample }
    ensures part { PartExample }
    ensures tallies { TalliesExample }
{}
