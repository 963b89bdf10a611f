//! Worked examples of the definitions, worked out by hand.
ghost use Rattle.std.specs.Prelude.{◌≡◌, ◌++◌, [], ◌∷◌, codes, replicate};
ghost use Rattle.mbox_cut.specs.Examples.{three_messages};
ghost use Rattle.mail_search.specs.Answers.{hits_of, output_of};
ghost use Rattle.mail_search.specs.Examples.{NoCommitExample, ThreeCommitsExample};
ghost use Rattle.mail_search.specs.Notes.{note_of};
ghost use Rattle.mail_search.specs.Statuses.{number_of};
ghost use Rattle.mail_words.specs.Key.{key_of};

use crate::status::Status;
use mail_query::Query;
use mail_query::laws::truth_by_cases;

/// What is printed over a mailbox of three messages: the words of separator lines aren't searched.
pub fn answers_over_three_messages()
    ensures { output_of three_messages (Query.Word (key_of (codes "ring")) ∷ Query.Word (key_of (codes "alice")) ∷ [])
        ≡ codes "2: 1 3\n0:\n" }
{
    truth_by_cases();
}

/// Which messages of small mailboxes a query holds of.
pub fn hits_of_small_mailboxes()
    ensures no_bytes { hits_of [] (Query.Word (key_of (codes "x"))) ≡ [] }
    ensures empty_lines { hits_of (codes "\n\n") (Query.Word (key_of (codes "x"))) ≡ [] }
    ensures separator_as_content { hits_of (codes "From a\none\nFrom two\n") (Query.Word (key_of (codes "two"))) ≡ 1 ∷ [] }
    ensures separator { hits_of (codes "From a\none\n\nFrom two\n") (Query.Word (key_of (codes "two"))) ≡ [] }
    ensures without { hits_of (codes "From a\none\n\nFrom two\n") (Query.Not (Query.Word (key_of (codes "one")))) ≡ 2 ∷ [] }
    ensures second { hits_of (codes "From a\r\nx y\r\n\r\nFrom b\r\nz") (Query.Word (key_of (codes "z"))) ≡ 2 ∷ [] }
    ensures longest { hits_of (codes "From a\n" ++ replicate 32 97) (Query.Word (key_of (replicate 32 97))) ≡ 1 ∷ [] }
    ensures too_long { hits_of (codes "From a\n" ++ replicate 33 97) (Query.Word (key_of (replicate 32 97))) ≡ [] }
{
    truth_by_cases();
}

/// The status of a script whose line 2 is refused, and its note.
pub fn refused_script()
    ensures number { number_of (Status.BadScript 2) ≡ 9 }
    ensures note { note_of (Status.BadScript 2) ≡ codes "mailring: script line 2 is not read\n" }
{}

/// The report on closed rings: on one with no commit, and on one with three commits, of which one sealed a region.
pub fn reports_on_closed_rings()
    ensures no_commit { NoCommitExample }
    ensures three_commits { ThreeCommitsExample }
{}
