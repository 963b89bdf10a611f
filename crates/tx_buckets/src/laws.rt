//! Worked examples of the definitions of `specs/`, each the contract of a function that does nothing.
ghost use Rattle.tx_buckets.specs.Examples.{FoundExample, NotThereExample, NoneExample, RecordAtExample};
ghost use Rattle.tx_buckets.specs.Examples.{WithRecordExample, WithCellExample, InsertedExample, CellAddedExample, RecordWordsExample, CellWordsExample};
ghost use Rattle.tx_buckets.specs.Examples.{OpenedExample, ReadWordExample, ReadKeyExample, FoundKeyExample, InsertedNotExample, AddedCellNotExample, WithWordsExample, WritesMoreExample};

/// Records that are there and that aren't.
pub fn record_examples()
    ensures found { FoundExample }
    ensures not_there { NotThereExample }
    ensures none { NoneExample }
    ensures record_at { RecordAtExample }
{}

/// A first record, and its first cell.
pub fn growth_examples()
    ensures with_record { WithRecordExample }
    ensures with_cell { WithCellExample }
    ensures inserted { InsertedExample }
    ensures cell_added { CellAddedExample }
    ensures record_words { RecordWordsExample }
    ensures cell_words { CellWordsExample }
{}

/// What an attempt has read and written.
pub fn attempt_examples()
    ensures opened { OpenedExample }
    ensures read_word { ReadWordExample }
    ensures read_key { ReadKeyExample }
    ensures found_key { FoundKeyExample }
    ensures not_inserted { InsertedNotExample }
    ensures no_cell { AddedCellNotExample }
    ensures with_words { WithWordsExample }
    ensures writes_more { WritesMoreExample }
{}
