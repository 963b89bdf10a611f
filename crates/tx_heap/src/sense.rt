//! What the words of an index mean.
ghost use Rattle.std.specs.Prelude.{◌≡◌, ◌≤◌, length};
ghost use Rattle.mail_words.specs.Lists.{postings_in};
ghost use Rattle.tx_heap.specs.Layout.{sizes_of, IsWithinLimits};
ghost use Rattle.tx_heap.specs.Mail.{AllowsRegions, IsGoodMail, mail_budget};

use crate::plan::Plan;
use mail_words::WordLists;
use std::marker::Model;
use tx_model::Sense;

/// The words of a memory are an index of word lists.
#[derive(Drop)]
pub struct MailSense {
    plan: Plan,
    lists: WordLists,
}

impl Model for MailSense {
    ghost use Rattle.std.specs.Prelude.{◌≡◌, List};
    ghost use Rattle.mail_words.specs.Key.{KeyNumbers};
    ghost use Rattle.tx_heap.specs.Layout.{sizes_of};

    ghost Value = { List (List KeyNumbers) };

    ghost view = { λ sense. sense.lists };

    ghost invariant = { λ sense. sense.plan ≡ sizes_of sense.lists };
}

impl MailSense {
    /// The index of these lists: at most 1,048,576 of them, with at most 8,388,608 keys in all.
    pub fn of(lists: WordLists) -> Self
        requires messages { length lists ≤ 1048576 }
        requires postings { postings_in lists ≤ 8388608 }
        ensures { result ≡ lists }
    {
        MailSense {
            plan: Plan::for_postings(lists.messages(), lists.postings()),
            lists,
        }
    }

    /// Where the words of the index lie.
    pub fn plan(&self) -> Plan
        ensures plan { result ≡ sizes_of self.now }
        ensures limits { IsWithinLimits result }
    {
        // A look at a field tells the limits.
        let plan = self.plan;
        let _ = &plan.messages;
        plan
    }

    /// The word lists of the messages.
    pub fn lists(&self) -> &WordLists
        ensures { result.now ≡ self.now }
    {
        &self.lists
    }
}

impl Sense for MailSense {
    ghost use Rattle.tx_heap.specs.Mail.{AllowsRegions, IsGoodMail, mail_budget};
    ghost use Rattle.tx_heap.specs.BudgetLaw.{budget_falls};

    ghost allows = { AllowsRegions };

    ghost good = { IsGoodMail };

    ghost budget = { mail_budget };

    ghost budget_falls = { budget_falls };
}
