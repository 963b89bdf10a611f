//! What the definitions of this crate say, by worked examples and by what follows of a source that
//! tells its bytes.
ghost use Rattle.std.specs.Prelude.{◌≡◌, ◌<◌, ◌≤◌, ◌-◌, ◌^◌, ℕ, List, [], ◌∷◌, true, false, codes, length, Some, Ok, Err, Vec};
ghost use Rattle.std.specs.declared.alloc.Global.{Global as Heap};
ghost use Rattle.std.specs.declared.option.Option.{Option};
ghost use Rattle.mail_io.specs.Causes.{Rose, HasCause};
ghost use Rattle.mail_io.specs.Counts.{counted_up};
ghost use Rattle.mail_io.specs.Examples.{TakesFour};
ghost use Rattle.mail_io.specs.InMemory.{faults_after, wants_after};
ghost use Rattle.mail_io.specs.Reading.{TakesAll};
ghost use Rattle.mail_io.specs.Refusals.{ReadFailed};
ghost use Rattle.mail_io.specs.Texts.{put_error_text, read_error_text, write_error_text};
ghost use Rattle.mail_io.specs.Writing.{Sends, Offers, PassesOn};

use crate::{PutError, ReadError, WriteError};

/// A count rises by one, and one that stands at the end of its type counts as risen.
pub fn counts_that_rise()
    ensures by_one { Rose 0 1 }
    ensures not_by_none { ¬ Rose 1 1 }
    ensures at_the_end { Rose (2 ^ 64 - 1) (2 ^ 64 - 1) }
    ensures not_below_the_end { ¬ Rose (2 ^ 64 - 2) (2 ^ 64 - 2) }
    ensures one_more { counted_up 4 ≡ 5 }
    ensures no_more { counted_up (2 ^ 64 - 1) ≡ 2 ^ 64 - 1 }
{}

/// A refusal of reading has a fault. An `Ok` and other refusals have none.
pub fn causes_of_refusals()
    ensures failed { HasCause {T = ℕ} ReadFailed 0 1 (Err ReadError.Failed) }
    ensures not_for_nothing { ¬ HasCause {T = ℕ} ReadFailed 1 1 (Err ReadError.Failed) }
    ensures large { HasCause {T = ℕ} ReadFailed 1 1 (Err ReadError.TooLarge) }
    ensures ok { HasCause {T = ℕ} ReadFailed 1 1 (Ok 7) }
    ensures not_passed_over { ¬ HasCause {T = ℕ} ReadFailed 1 2 (Ok 7) }
    ensures not_hidden { ¬ HasCause {T = ℕ} ReadFailed 1 2 (Err ReadError.TooLarge) }
    ensures never_falls { ¬ HasCause {T = ℕ} ReadFailed 2 1 (Err ReadError.TooLarge) }
{}

/// At a limit of four, four bytes are read whole and five are refused.
pub fn four_bytes_and_five()
    ensures four { (bytes : Vec ℕ Heap) → bytes.items ≡ codes "four"
        → TakesAll (Some (codes "four")) (Some []) 4 (Ok bytes) }
    ensures five { TakesAll (Some (codes "fives")) (Some []) 4 (Err ReadError.TooLarge) }
    ensures not_four { (after : Option (List ℕ))
        → ¬ TakesAll (Some (codes "four")) after 4 (Err ReadError.TooLarge) }
    ensures not_five { (after : Option (List ℕ)) (bytes : Vec ℕ Heap)
        → ¬ TakesAll (Some (codes "fives")) after 4 (Ok bytes) }
{}

/// A source that tells its bytes is read whole, or has more than the limit.
pub fn what_a_source_told(limit: u64)
    ensures whole { (left : List ℕ) (after : Option (List ℕ)) (bytes : Vec ℕ Heap)
        → TakesAll (Some left) after limit (Ok bytes) → bytes.items ≡ left }
    ensures nothing_left { (left : List ℕ) (after : Option (List ℕ)) (bytes : Vec ℕ Heap)
        → TakesAll (Some left) after limit (Ok bytes) → after ≡ Some [] }
    ensures within { (left : List ℕ) (after : Option (List ℕ)) (bytes : Vec ℕ Heap)
        → TakesAll (Some left) after limit (Ok bytes) → length left ≤ limit }
    ensures large { (left : List ℕ) (after : Option (List ℕ))
        → TakesAll (Some left) after limit (Err ReadError.TooLarge) → limit < length left }
{}

/// An answer line that is cut short after four bytes.
pub fn a_line_cut_short()
    ensures sent { Sends {T = ℕ} (Some []) (Some (codes "2: 1")) (codes "2: 1 3\n")
        (Err (WriteError.Failed 4)) }
    ensures not_more { ¬ Sends {T = ℕ} (Some []) (Some (codes "2: 1")) (codes "2: 1 3\n")
        (Err (WriteError.Failed 5)) }
    ensures not_done { ¬ Sends {T = ℕ} (Some []) (Some (codes "2: 1")) (codes "2: 1 3\n") (Ok 0) }
    ensures done { Sends {T = ℕ} (Some (codes "0:\n")) (Some (codes "0:\n1: 2\n")) (codes "1: 2\n") (Ok 0) }
    ensures passed_on { PassesOn {E = ℕ} (Some []) (Some (codes "2: 1")) (Ok 4) (codes "2: 1 3\n") }
    ensures not_passed_on { ¬ PassesOn {E = ℕ} (Some []) (Some (codes "2: 3")) (Ok 4) (codes "2: 1 3\n") }
    ensures cut_short { PassesOn (Some []) (Some (codes "2: ")) (Err PutError.Failed) (codes "2: 1 3\n") }
    ensures no_other_bytes { ¬ PassesOn (Some []) (Some (codes "3")) (Err PutError.Failed) (codes "2: 1 3\n") }
{}

/// A line of seven bytes is offered to a sink that takes four bytes in a call and counts its calls.
pub fn a_line_offered_twice()
    ensures whole { Offers TakesFour 0 (codes "2: 1 3\n" ∷ []) false 2 }
    ensures not_byte_by_byte { ¬ Offers TakesFour 0 (codes "2: 1 3\n" ∷ []) false 7 }
    ensures nothing { Offers TakesFour 0 ([] ∷ []) false 0 }
    ensures refused { Offers TakesFour 0 (codes "2: 1 3\n" ∷ []) true 1 }
{}

/// A fault and a want are each counted where they come, and nowhere else.
pub fn counts_after_a_put()
    ensures fault { faults_after 0 (Err PutError.Failed) ≡ 1 }
    ensures no_fault { faults_after 3 (Ok 4) ≡ 3 }
    ensures want_is_no_fault { faults_after 3 (Err PutError.Memory) ≡ 3 }
    ensures want { wants_after 0 (Err PutError.Memory) ≡ 1 }
    ensures fault_is_no_want { wants_after 3 (Err PutError.Failed) ≡ 3 }
{}

/// The texts of the refusals.
pub fn texts_of_refusals()
    ensures put { put_error_text PutError.Failed ≡ codes "writing failed" }
    ensures read { read_error_text ReadError.TooLarge ≡ codes "the input is too large" }
    ensures write { write_error_text (WriteError.Failed 14) ≡ codes "writing failed after 14 bytes" }
    ensures want { write_error_text (WriteError.Memory 0) ≡ codes "no memory after 0 bytes" }
{}
