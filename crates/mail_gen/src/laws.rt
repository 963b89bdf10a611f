//! What the definition says of the first mailboxes. The functions do nothing: their contracts are the statements.
ghost use Rattle.std.specs.Prelude.{◌≡◌, ◌≤◌, ◌*◌, ℕ, [], codes, length, map, true};
ghost use Rattle.std.specs.List.{range_with_len};
ghost use Rattle.mail_words.specs.Lists.{postings_in, word_lists};
ghost use Rattle.mbox_cut.specs.Mbox.{bytes_of, is_mbox, messages_of};
ghost use Rattle.mail_gen.specs.Generator.{mailbox, text, word};

/// No messages are no bytes.
pub fn empty_mailbox()
    ensures { mailbox 0 ≡ [] }
{}

/// The first words, and one that comes again 75,025 words later.
pub fn first_words()
    ensures first { word 1 ≡ codes "w40503" }
    ensures second { word 2 ≡ codes "w15470" }
    ensures third { word 3 ≡ codes "w55974" }
    ensures fourth { word 4 ≡ codes "w30941" }
    ensures again { word 75026 ≡ codes "w40503" }
{}

/// What is made is a mailbox of as many messages as were asked for, each with the text of its number.
pub fn mailbox_of_messages()
    ensures mbox { (count : ℕ) → count ≤ 100_000 → is_mbox (mailbox count) ≡ true }
    ensures texts { (count : ℕ) → count ≤ 100_000 → map (bytes_of (mailbox count)) (messages_of (mailbox count)) ≡ map text (range_with_len 1 count) }
    ensures messages { (count : ℕ) → count ≤ 100_000 → length (messages_of (mailbox count)) ≡ count }
{}

/// The mailbox stays within an indexer's limits: at most 404 bytes and 55 words a message.
pub fn mailbox_within_limits()
    ensures bytes { (count : ℕ) → count ≤ 100_000 → length (mailbox count) ≤ 404 * count }
    ensures postings { (count : ℕ) → count ≤ 100_000 → postings_in (word_lists (mailbox count) (messages_of (mailbox count))) ≤ 55 * count }
{}
