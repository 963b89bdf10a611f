//! What the definitions say of examples, and laws about them. The functions do nothing: their contracts are the
//! statements.
ghost use Rattle.std.specs.Prelude.{◌≡◌, ◌≤◌, ◌↔◌, length, ◌++◌, ◌∷◌, [], ℕ, List, codes, replicate, IsTrue, Some, None};
ghost use Rattle.mail_words.specs.Key.{key_of};
ghost use Rattle.mail_query.specs.declared.query.Query.{Query};
ghost use Rattle.mail_query.specs.declared.query.Query.TheVariants.{Word, Not, All, Any};
ghost use Rattle.mail_query.specs.declared.error.QueryError.TheVariants.{Bad, LongWord, Deep, Long};
ghost use Rattle.mail_query.specs.Grammar.{ReadsAs};
ghost use Rattle.mail_query.specs.Limits.{IsWithinLimits};
ghost use Rattle.mail_query.specs.InForm.{in_form, has_words};
ghost use Rattle.mail_query.specs.Refusals.{refusal_of};
ghost use Rattle.mail_query.specs.Printed.{printed};

use mail_words::laws::key_and_word_give_each_other;

/// All of (`a` or `b`) and not `c`, as a text with many spaces and as it is printed.
pub fn spaces_and_capitals()
    ensures reads { let word = λ (text : List ℕ). Word (key_of text) in
        ReadsAs (codes "( A  |b) !c") (All
        (record { members = Any (record { members = word (codes "a") ∷ word (codes "b") ∷ [] }) ∷ Not (word (codes "c")) ∷ [] })) }
    ensures prints { let word = λ (text : List ℕ). Word (key_of text) in
        printed (All (record { members = Any (record { members = word (codes "a") ∷ word (codes "b") ∷ [] }) ∷ Not (word (codes "c")) ∷ [] }))
        ≡ codes "(a|b) !c" }
{}

/// `|` binds looser than items side by side, and `!` tighter.
pub fn what_binds_tighter()
    ensures bar { let word = λ (text : List ℕ). Word (key_of text) in
        ReadsAs (codes "a b|c") (Any (record { members = All (record { members = word (codes "a") ∷ word (codes "b") ∷ [] }) ∷ word (codes "c") ∷ [] })) }
    ensures bang { let word = λ (text : List ℕ). Word (key_of text) in
        ReadsAs (codes "!a b") (All (record { members = Not (word (codes "a")) ∷ word (codes "b") ∷ [] })) }
{}

/// Texts that aren't queries.
pub fn bad_texts()
    ensures double_bang { refusal_of (codes "!!a") ≡ Some Bad }
    ensures closed { refusal_of (codes "a)") ≡ Some Bad }
    ensures empty { refusal_of [] ≡ Some Bad }
    ensures group { refusal_of (codes "()") ≡ Some Bad }
    ensures ends_early { refusal_of (codes "a |") ≡ Some Bad }
    ensures tab { refusal_of (codes "a\tb") ≡ Some Bad }
{}

/// 32 parentheses may be open, and not 33.
pub fn deepest_text()
    ensures thirty_two { ReadsAs (replicate 32 40 ++ 97 ∷ replicate 32 41) (Word (key_of (codes "a"))) }
    ensures not_refused { refusal_of (replicate 32 40 ++ 97 ∷ replicate 32 41) ≡ None }
    ensures thirty_three { refusal_of (replicate 33 40 ++ 97 ∷ replicate 33 41) ≡ Some Deep }
{}

/// A run of 32 letters is a word, and one of 33 is none.
pub fn longest_run()
    ensures thirty_two { ReadsAs (replicate 32 97) (Word (key_of (replicate 32 97))) }
    ensures not_refused { refusal_of (replicate 32 97) ≡ None }
    ensures thirty_three { refusal_of (replicate 33 97) ≡ Some LongWord }
{}

/// The refusal that comes first in the text is the answer.
pub fn first_of_two_refusals()
    ensures long_word { refusal_of (replicate 33 97 ++ 0xE9 ∷ []) ≡ Some LongWord }
    ensures bad { refusal_of (41 ∷ replicate 33 97) ≡ Some Bad }
    ensures deep { refusal_of (replicate 33 40 ++ replicate 33 97) ≡ Some Deep }
{}

/// A text of 4,096 bytes is none too long, and one of 4,097 is, whatever stands in it.
pub fn longest_text()
    ensures fits { refusal_of (replicate 4095 32 ++ 97 ∷ []) ≡ None }
    ensures too_long { refusal_of (replicate 4096 32 ++ 97 ∷ []) ≡ Some Long }
    ensures before_all { refusal_of (41 ∷ replicate 4096 32) ≡ Some Long }
{}

/// A text reads as one query at most, which is in form.
pub fn one_reading()
    ensures one { (text : List ℕ) (p q : Query) → ReadsAs text p → ReadsAs text q → p ≡ q }
    ensures formed { (text : List ℕ) (q : Query) → ReadsAs text q → IsTrue (in_form q) }
    ensures words { (text : List ℕ) (q : Query) → ReadsAs text q → IsTrue (has_words q) }
{
    key_and_word_give_each_other();
}

/// A text is refused exactly where it isn't a text within the limits that reads as a query.
pub fn refused_or_read()
    ensures { (text : List ℕ) → (refusal_of text ≡ None) ↔ (IsWithinLimits text × ((q : Query) × ReadsAs text q)) }
{}

/// What is printed reads as the query and as no other. It isn't refused if the text that was read wasn't and the
/// printed form has at most 4,096 bytes: a space that it needs may be one that the text didn't.
pub fn printed_form_reads_back()
    ensures reads { (q : Query) → IsTrue (in_form q) → IsTrue (has_words q) → ReadsAs (printed q) q }
    ensures same { (text : List ℕ) (p q : Query) → ReadsAs text p → ReadsAs (printed p) q → q ≡ p }
    ensures not_refused { (text : List ℕ) (q : Query) → refusal_of text ≡ None → ReadsAs text q → length (printed q) ≤ 4096 → refusal_of (printed q) ≡ None }
{
    key_and_word_give_each_other();
}
