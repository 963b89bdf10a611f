//! What the definitions of truth and answers say of examples, and laws about them. The functions do nothing: their contracts are the statements.
ghost use Rattle.std.specs.Prelude.{◌≡◌, ◌↔◌, ℕ, List, [], ◌∷◌, map, codes, true, false, not};
ghost use Rattle.std.specs.List.{list_all, list_any};
ghost use Rattle.mail_words.specs.Key.{KeyNumbers, key_of};
ghost use Rattle.mail_words.specs.Lists.{AllRise};
ghost use Rattle.mail_query.specs.declared.query.Query.{Query};
ghost use Rattle.mail_query.specs.Truth.{satisfies, keys_in, has_key};
ghost use Rattle.mail_query.specs.Numbers.{has_number, Rises, RisesFrom};
ghost use Rattle.mail_query.specs.Answers.{Table, keys_with, messages_with, numbers_where, answer_line};
ghost use Rattle.mail_query.specs.Bits.{has_bit};
ghost use Rattle.mail_query.specs.ListTable.{table_of, IsInOrder};
ghost use Rattle.mail_query.specs.Examples.{hello, ring, bloom, subject, hello_without_ring, ring_or_bloom, three_messages};

use crate::query::Query;
use mail_words::laws::keys_are_totally_ordered;

/// Which of the words of three messages a query holds of.
pub fn truth_over_three_messages()
    ensures word { satisfies (Query.Word ring) (hello ∷ ring ∷ subject ∷ []) ≡ true }
    ensures no_word { satisfies (Query.Word ring) (bloom ∷ hello ∷ subject ∷ []) ≡ false }
    ensures first { satisfies hello_without_ring (hello ∷ ring ∷ subject ∷ []) ≡ false }
    ensures second { satisfies hello_without_ring (bloom ∷ hello ∷ subject ∷ []) ≡ true }
    ensures third { satisfies hello_without_ring (bloom ∷ ring ∷ []) ≡ false }
    ensures one_of_two { satisfies ring_or_bloom (bloom ∷ hello ∷ subject ∷ []) ≡ true }
{}

/// What a query holds of, by its cases.
pub fn truth_by_cases()
    ensures word { (key : KeyNumbers) (keys : List KeyNumbers) → satisfies (Query.Word key) keys ≡ has_key key keys }
    ensures negation { (q : Query) (keys : List KeyNumbers) → satisfies (Query.Not q) keys ≡ not (satisfies q keys) }
    ensures all { (queries : List Query) (keys : List KeyNumbers)
        → satisfies (Query.All (record { members = queries })) keys ≡ list_all (λ q. satisfies q keys) queries }
    ensures any { (queries : List Query) (keys : List KeyNumbers)
        → satisfies (Query.Any (record { members = queries })) keys ≡ list_any (λ q. satisfies q keys) queries }
{}

/// The keys of the words of a query.
pub fn keys_of_a_query()
    ensures { keys_in hello_without_ring ≡ hello ∷ ring ∷ [] }
{}

/// What a table of three messages pairs with a number and with a key.
pub fn pairs_of_three_messages()
    ensures first { keys_with three_messages 1 ≡ subject ∷ ring ∷ hello ∷ [] }
    ensures fourth { keys_with three_messages 4 ≡ [] }
    ensures ring { messages_with three_messages ring ≡ 1 ∷ 3 ∷ [] }
    ensures hello { messages_with three_messages hello ≡ 1 ∷ 2 ∷ [] }
{}

/// The table of two word lists, which is in order, and tables that aren't: by message, by key, or for a pair that is there twice.
pub fn table_of_two_lists()
    ensures table { table_of ((hello ∷ ring ∷ []) ∷ (bloom ∷ []) ∷ []) ≡ (hello, 1) ∷ (ring, 1) ∷ (bloom, 2) ∷ [] }
    ensures in_order { IsInOrder ((hello, 1) ∷ (ring, 1) ∷ (bloom, 2) ∷ []) }
    ensures by_message { IsInOrder ((bloom, 2) ∷ (hello, 1) ∷ []) → ⊥ }
    ensures by_key { IsInOrder ((ring, 1) ∷ (hello, 1) ∷ []) → ⊥ }
    ensures twice { IsInOrder ((ring, 1) ∷ (ring, 1) ∷ []) → ⊥ }
{}

/// The table of rising lists is in order. No other table in order pairs the same messages with each key.
pub fn tables_in_order()
    ensures lists { (lists : List (List KeyNumbers)) → AllRise lists → IsInOrder (table_of lists) }
    ensures no_other { (table other : Table) → IsInOrder table → IsInOrder other → ((key : KeyNumbers) → messages_with table key ≡ messages_with other key)
        → table ≡ other }
{
    keys_are_totally_ordered();
}

/// The answers to two queries over a table of three messages.
pub fn answers_over_three_messages()
    ensures hello_without_ring { numbers_where hello_without_ring three_messages 3 ≡ 2 ∷ [] }
    ensures ring_or_bloom { numbers_where ring_or_bloom three_messages 3 ≡ 1 ∷ 2 ∷ 3 ∷ [] }
    ensures two_messages { numbers_where ring_or_bloom three_messages 2 ≡ 1 ∷ 2 ∷ [] }
    ensures no_messages { numbers_where ring_or_bloom three_messages 0 ≡ [] }
{}

/// Answer lines.
pub fn answer_lines()
    ensures none { answer_line [] ≡ codes "0:\n" }
    ensures some { answer_line (7 ∷ 17 ∷ []) ≡ codes "2: 7 17\n" }
{}

/// The bits of the numbers 1, 3 and 64.
pub fn bits_of_numbers()
    ensures one { has_bit (10 ∷ 1 ∷ []) 1 ≡ true }
    ensures two { has_bit (10 ∷ 1 ∷ []) 2 ≡ false }
    ensures three { has_bit (10 ∷ 1 ∷ []) 3 ≡ true }
    ensures in_the_next_word { has_bit (10 ∷ 1 ∷ []) 64 ≡ true }
    ensures past_the_words { has_bit (10 ∷ 1 ∷ []) 128 ≡ false }
{}

/// The messages that a table pairs with a key rise, and a number is among them where the key is among the keys that
/// the table pairs with the number. No other list is so.
pub fn messages_of_a_key()
    ensures rise { (table : Table) (key : KeyNumbers) → Rises (messages_with table key) }
    ensures members { (table : Table) (key : KeyNumbers) (number : ℕ) → has_number number (messages_with table key) ≡ has_key key (keys_with table number) }
    ensures no_other { (table : Table) (key : KeyNumbers) (numbers : List ℕ) → Rises numbers
        → ((number : ℕ) → has_number number numbers ≡ has_key key (keys_with table number)) → numbers ≡ messages_with table key }
{}

/// The numbers of an answer rise from 1 on.
pub fn answers_rise()
    ensures { (q : Query) (table : Table) (count : ℕ) → RisesFrom 1 (numbers_where q table count) }
{}
