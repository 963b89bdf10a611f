//! Where an evaluation has its messages from.
ghost use Rattle.std.specs.Prelude.{◌≡◌, ◌++◌, ℕ, List, OnOk, OnErr, IfErr};
ghost use Rattle.mail_words.specs.Key.{KeyNumbers};
ghost use Rattle.mail_query.specs.Answers.{Table, messages_with};

use mail_words::Key;

/// The messages of each word, from wherever they are kept.
pub trait Postings {
    /// Why a list couldn't be had.
    type Stop;

    /// The tables that the postings may stand for.
    ghost fits: { Self → Table → Type 0 };

    /// What stays between an earlier value and a later one.
    ghost kept: { Self → Self → Type 0 };

    /// What a stop at a key says of the values before it and after it.
    ghost stopped: { Self → KeyNumbers → Self → Self.Stop → Type 0 };

    /// Adds the numbers of the messages that have the word, rising. After a stop what `into` held before is still
    /// its beginning.
    fn messages(&mut self, key: &Key, into: &mut Vec<u64>) -> Result<(), Self::Stop>
        ensures list { OnOk result ((table : Table) → fits self.new table
            → fits self.old table × (into.new.items ≡ into.old.items ++ messages_with table key.now)) }
        ensures kept { OnOk result (kept self.old self.new) }
        ensures old_part { OnErr result ((added : List ℕ) × (into.new.items ≡ into.old.items ++ added)) }
        ensures stopped { IfErr result (λ stop. stopped self.old key.now self.new stop) };

    ghost kept_refl: { (x : Self) → kept x x };

    ghost kept_trans: { (x y z : Self) → kept x y → kept y z → kept x z };
}
