//! Worked examples of the definitions, worked out by hand. The functions do nothing: their contracts are the statements.
ghost use Rattle.mail_index.specs.Examples.{NoListsExample, NothingCommittedExample, RowsAtOnceExample};

/// Closed rings that have an index of lists, and some that don't.
pub fn index_examples()
    ensures no_lists { NoListsExample }
    ensures nothing_committed { NothingCommittedExample }
    ensures rows_at_once { RowsAtOnceExample }
{}
