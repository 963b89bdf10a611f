//! What the definitions say of examples, and laws about them. The functions do nothing: their contracts are the statements.
ghost use Rattle.std.specs.Prelude.{◌≡◌, ◌↔◌, ℕ, List, [], ◌∷◌, map, codes, IsTrue};
ghost use Rattle.std.specs.Cmp.Lexicographic.{slice_cmp};
ghost use Rattle.std.specs.List.{Contains};
ghost use Rattle.std.specs.Ordering.{nat_cmp, is_eq};
ghost use Rattle.std.specs.Cmp.{IsTotalOrder};
ghost use Rattle.std.specs.List.Sorted.{IsStrictlySortedBy};
ghost use Rattle.std.specs.declared.cmp.Ordering.TheVariants.{Less};
ghost use Rattle.mbox_cut.specs.Examples.{three_messages};
ghost use Rattle.mail_words.specs.Key.{KeyNumbers, is_word, lowered, key_of, word_of, key_cmp, same_key, is_key};
ghost use Rattle.mail_words.specs.Hash.{hash_of, bucket_of, lane_of};
ghost use Rattle.mail_words.specs.Lists.{word_lists, postings_in};
ghost use Rattle.mail_words.specs.Words.{runs_of, words_of, word_list};

/// The words of a mailbox of three messages, each list in byte order.
pub fn words_of_three_messages()
    ensures first { map word_of (word_list (codes "Subject: Ring test\n\nHello ring\n\n")) ≡
        codes "hello" ∷ codes "ring" ∷ codes "subject" ∷ codes "test" ∷ [] }
    ensures second { map word_of (word_list (codes "Subject: other\n\nhello bloom\n\n")) ≡
        codes "bloom" ∷ codes "hello" ∷ codes "other" ∷ codes "subject" ∷ [] }
    ensures third { map word_of (word_list (codes "RING bloom bloom\n\n")) ≡
        codes "bloom" ∷ codes "ring" ∷ [] }
{}

/// The runs of a message and its words, in their order.
pub fn runs_and_words_in_order()
    ensures runs { runs_of (codes "Subject: Ring test\n\nHello ring\n\n") ≡
        codes "Subject" ∷ codes "Ring" ∷ codes "test" ∷ codes "Hello" ∷ codes "ring" ∷ [] }
    ensures words { words_of (codes "Subject: Ring test\n\nHello ring\n\n") ≡
        codes "subject" ∷ codes "ring" ∷ codes "test" ∷ codes "hello" ∷ codes "ring" ∷ [] }
{}

/// A run of 32 letters is a word, and one of 33 gives none, not even a part of it.
pub fn longest_word()
    ensures thirty_two { words_of (codes "a abcdefghijklmnopqrstuvwxyzabcdef b") ≡
        codes "a" ∷ codes "abcdefghijklmnopqrstuvwxyzabcdef" ∷ codes "b" ∷ [] }
    ensures thirty_three { words_of (codes "a abcdefghijklmnopqrstuvwxyzabcdefg b") ≡ codes "a" ∷ codes "b" ∷ [] }
{}

/// An underscore, a zero byte and a byte above 127 part words. Letters are lowered as ASCII.
pub fn other_bytes_part_words()
    ensures underscore { words_of (codes "Ab_c9") ≡ codes "ab" ∷ codes "c9" ∷ [] }
    ensures zero { words_of (97 ∷ 0 ∷ 98 ∷ []) ≡ codes "a" ∷ codes "b" ∷ [] }
    ensures high { words_of (97 ∷ 0xC3 ∷ 0xA9 ∷ 98 ∷ []) ≡ codes "a" ∷ codes "b" ∷ [] }
    ensures none { words_of (codes " _\n") ≡ [] }
{}

/// Two words and their keys.
pub fn keys_of_two_words()
    ensures short { key_of (codes "ring") ≡ record { k0 = 0x72696e6700000000; k1 = 0; k2 = 0; k3 = 0 } }
    ensures short_back { word_of (record { k0 = 0x72696e6700000000; k1 = 0; k2 = 0; k3 = 0 }) ≡ codes "ring" }
    ensures long { key_of (codes "abcdefghijklmnopqrstuvwxyz012345") ≡
        record { k0 = 0x6162636465666768; k1 = 0x696a6b6c6d6e6f70; k2 = 0x7172737475767778; k3 = 0x797a303132333435 } }
    ensures long_back { word_of (record { k0 = 0x6162636465666768; k1 = 0x696a6b6c6d6e6f70; k2 = 0x7172737475767778; k3 = 0x797a303132333435 }) ≡
        codes "abcdefghijklmnopqrstuvwxyz012345" }
{}

/// Keys are in the byte order of their words: a beginning comes first, and digits come before letters.
pub fn keys_in_byte_order()
    ensures beginning { key_cmp (key_of (codes "a")) (key_of (codes "aa")) ≡ Less }
    ensures letters { key_cmp (key_of (codes "aa")) (key_of (codes "b")) ≡ Less }
    ensures digit { key_cmp (key_of (codes "9")) (key_of (codes "a")) ≡ Less }
    ensures last { key_cmp (key_of (codes "abcdefghijklmnopqrstuvwxyz012345")) (key_of (codes "abcdefghijklmnopqrstuvwxyz012346")) ≡ Less }
{}

/// The ten postings of a mailbox of three messages.
pub fn postings_of_three_messages()
    ensures lists { map (map word_of)
        (word_lists three_messages (record { from = 48; to = 80 } ∷ record { from = 126; to = 155 } ∷ record { from = 203; to = 221 } ∷ [])) ≡
        (codes "hello" ∷ codes "ring" ∷ codes "subject" ∷ codes "test" ∷ []) ∷
        (codes "bloom" ∷ codes "hello" ∷ codes "other" ∷ codes "subject" ∷ []) ∷
        (codes "bloom" ∷ codes "ring" ∷ []) ∷ [] }
    ensures postings { postings_in
        (word_lists three_messages (record { from = 48; to = 80 } ∷ record { from = 126; to = 155 } ∷ record { from = 203; to = 221 } ∷ [])) ≡ 10 }
{}

/// Two words with their hashes, buckets and lanes, worked out apart from the definition.
pub fn hashes_of_two_words()
    ensures short { hash_of (key_of (codes "ring")) ≡ 0xdbcd888f24eb9570 }
    ensures short_bucket { bucket_of (key_of (codes "ring")) ≡ 879 }
    ensures short_lane { lane_of (key_of (codes "ring")) ≡ 1 }
    ensures long { hash_of (key_of (codes "abcdefghijklmnopqrstuvwxyz012345")) ≡ 0xac4750d620fcba54 }
    ensures long_bucket { bucket_of (key_of (codes "abcdefghijklmnopqrstuvwxyz012345")) ≡ 689 }
    ensures long_lane { lane_of (key_of (codes "abcdefghijklmnopqrstuvwxyz012345")) ≡ 0 }
{}

/// The word list rises, so no key is in it twice, and its keys are those of the words.
pub fn word_list_is_the_set_of_keys()
    ensures rises { (message : List ℕ) → IsStrictlySortedBy key_cmp (word_list message) }
    ensures members { (message : List ℕ) (key : KeyNumbers) → Contains (word_list message) key ↔ Contains (map key_of (words_of message)) key }
{}

/// The key of a word gives the word back, in lower case.
pub fn key_and_word_give_each_other()
    ensures word { (word : List ℕ) → IsTrue (is_word word) → word_of (key_of (lowered word)) ≡ lowered word }
    ensures key { (word : List ℕ) → IsTrue (is_word word) → IsTrue (is_key (key_of (lowered word))) }
{}

/// The order of keys is the byte order of their words.
pub fn keys_are_ordered_as_their_words()
    ensures { (word other : List ℕ) → IsTrue (is_word word) → IsTrue (is_word other) → key_cmp (key_of word) (key_of other) ≡ slice_cmp nat_cmp word other }
{}

/// The order of keys is total, and two keys tie in it exactly where they are the same. The same keys are equal.
pub fn keys_are_totally_ordered()
    ensures total { IsTotalOrder key_cmp }
    ensures ties { (key other : KeyNumbers) → same_key key other ≡ is_eq (key_cmp key other) }
    ensures same { (key other : KeyNumbers) → IsTrue (same_key key other) ↔ (key ≡ other) }
{}
