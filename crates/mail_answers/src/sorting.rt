//! Message numbers in order.
ghost use Rattle.std.specs.Prelude.{◌↔◌, ℕ, Contains};
ghost use Rattle.mail_query.specs.Numbers.{Rises};

/// Puts the numbers in order, each once.
pub(crate) fn put_in_order(numbers: &mut Vec<u64>)
    ensures rises { Rises numbers.new.items }
    ensures same { (number : ℕ) → Contains numbers.new.items number ↔ Contains numbers.old.items number }
{
    numbers.sort_unstable();
    numbers.dedup();
}
