//! Facts about the words that an attempt wrote, each the contract of a function that does nothing.
ghost use Rattle.tx_model.specs.WordLaws.{ValueExactly, LastValue, OtherValue, PutApart, PutLength, PutAddresses, PutKnownExample, PutNewExample, ValueExample, NoValueExample};

/// A value is there exactly where the address is.
pub fn value_exactly()
    ensures { ValueExactly }
{}

/// The values after a write.
pub fn put_values()
    ensures last { LastValue }
    ensures others { OtherValue }
{}

/// The addresses after a write.
pub fn put_addresses()
    ensures apart { PutApart }
    ensures length { PutLength }
    ensures addresses { PutAddresses }
{}

/// Two words, and a write to one that is there or to a new one.
pub fn put_examples()
    ensures known { PutKnownExample }
    ensures new { PutNewExample }
{}

/// The value of an address that was written, and of one that wasn't.
pub fn value_examples()
    ensures found { ValueExample }
    ensures none { NoValueExample }
{}
