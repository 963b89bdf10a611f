//! What the definitions say, on examples whose positions were counted by hand, and in general.
ghost use Rattle.std.specs.Prelude.{◌≡◌, [], ◌∷◌, ◌++◌, true, false, codes, length};
ghost use Rattle.mbox_cut.specs.Examples.{three_messages};
ghost use Rattle.mbox_cut.specs.Mbox.{is_mbox, lines_of, messages_of, separators_among};

/// A mailbox of three messages.
pub fn three_messages()
    ensures { messages_of three_messages
        ≡ record { from = 48; to = 80 } ∷ record { from = 126; to = 155 } ∷ record { from = 203; to = 221 } ∷ [] }
{}

/// No bytes, and empty lines alone, are a mailbox of no messages.
pub fn no_messages()
    ensures nothing { is_mbox [] ≡ true }
    ensures nothing_within { messages_of [] ≡ [] }
    ensures empty_lines { is_mbox (codes "\n\n") ≡ true }
    ensures empty_lines_within { messages_of (codes "\n\n") ≡ [] }
{}

/// What begins with another line than `From ` is no mailbox: a carriage return alone and blanks aren't an empty line.
pub fn no_mailboxes()
    ensures text { is_mbox (codes "Hello\n") ≡ false }
    ensures no_space { is_mbox (codes "From\n") ≡ false }
    ensures later_separator { is_mbox (codes "Hello\n\nFrom a\n") ≡ false }
    ensures carriage_return { is_mbox (13 ∷ []) ≡ false }
    ensures blank { is_mbox (codes " \nFrom a\n") ≡ false }
    ensures byte_order_mark { is_mbox (239 ∷ 187 ∷ 191 ∷ codes "From a\n") ≡ false }
{}

/// A line that begins with `From ` is a separator only after an empty line or at the front.
pub fn after_empty_lines()
    ensures text_before { messages_of (codes "From a\none\nFrom two\n") ≡ record { from = 7; to = 20 } ∷ [] }
    ensures empty_line_before { messages_of (codes "From a\none\n\nFrom two\n") ≡ record { from = 7; to = 12 } ∷ record { from = 21; to = 21 } ∷ [] }
    ensures no_line_feed { messages_of (codes "From a\none\n\nFrom two") ≡ record { from = 7; to = 12 } ∷ record { from = 20; to = 20 } ∷ [] }
    ensures empty_lines_at_the_front { messages_of (codes "\n\nFrom a\none\n") ≡ record { from = 9; to = 13 } ∷ [] }
    ensures separator_before { messages_of (codes "From a\nFrom b\n") ≡ record { from = 7; to = 14 } ∷ [] }
{}

/// One carriage return directly before a line feed belongs to the line end, and no more than one.
pub fn carriage_returns()
    ensures one { messages_of (codes "From a\r\nx y\r\n\r\nFrom b\r\nz") ≡ record { from = 8; to = 15 } ∷ record { from = 23; to = 24 } ∷ [] }
    ensures two { messages_of (codes "From a\n\r\r\nFrom b\n") ≡ record { from = 7; to = 17 } ∷ [] }
{}

/// A mailbox has one message for each separator.
pub fn one_message_for_each_separator(bytes: &[u8])
    ensures { is_mbox bytes.now ≡ true → length (messages_of bytes.now) ≡ length (separators_among bytes.now (lines_of bytes.now)) }
{}
