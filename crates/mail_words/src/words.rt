//! The words of a message.
ghost use Rattle.std.specs.Prelude.{◌≡◌, IfOk};
ghost use Rattle.mail_words.specs.Words.{rising, word_list};

use crate::key::{Key, key_of};
use crate::memory::Memory;
use std::alloc::Global;

/// The keys of the message's words, rising, each once.
pub fn words_of(alloc: Global, message: &[u8]) -> Result<Vec<Key>, Memory>
    ensures { IfOk result (λ keys. keys.items ≡ word_list message.now) }
{
    let mut keys = Vec::new(alloc);
    list_words(&mut keys, message)?;
    Ok(keys)
}

// How many keys are gathered at least before doubles are dropped.
const FEW: usize = 1024;

// Puts the keys of the message's words instead of what `keys` held. Doubles are dropped on the way, so the room
// that is taken is that of the distinct keys.
pub(crate) fn list_words(keys: &mut Vec<Key>, message: &[u8]) -> Result<(), Memory>
    ensures { IfOk result (λ _. keys.new.items ≡ word_list message.now) }
{
    keys.clear();
    let mut most = FEW;
    for piece in message.split(|byte| !byte.is_ascii_alphanumeric()) {
        if let Some(key) = key_of(piece) {
            most = thin_out(keys, most);
            keys.push(key)?;
        }
    }
    drop_doubles(keys);
    Ok(())
}

// Drops doubles where the keys are as many as they may be, and says how many there may be then: twice those left.
fn thin_out(keys: &mut Vec<Key>, most: usize) -> usize
    ensures { rising keys.new.items ≡ rising keys.old.items }
{
    if keys.len() < most {
        return most;
    }
    drop_doubles(keys);
    keys.len().saturating_mul(2).max(FEW)
}

// Sorts the keys, and leaves each once.
fn drop_doubles(keys: &mut Vec<Key>)
    ensures { keys.new.items ≡ rising keys.old.items }
{
    keys.sort_unstable();
    keys.dedup();
}
