//! Looking for the keys of a batch, before anything is written.
ghost use Rattle.std.specs.Prelude.{◌≡◌, ◌<◌, ◌≤◌, ◌*◌, ℕ, [], None, Some, length, slice_index_or, IfOk, IfErr};
ghost use Rattle.tx_model.specs.declared.pass.PassState.TheVariants.{Active};
ghost use Rattle.mail_words.specs.Hash as hash;
ghost use Rattle.tx_model.specs.Calls.{IsStopped};
ghost use Rattle.tx_postings.specs.Filling.{words_for};
ghost use Rattle.tx_postings.specs.Heads.{needs_of, IsHead};
ghost use Rattle.tx_postings.specs.Looking.{HasHead, LookedAt, LookedUp, LookRefused};
ghost use Rattle.tx_postings.specs.declared.heads.Head.{Head};

use crate::heads::{CELLS, FREE, Head, KEYS, free_words, lowest_that_lacks};
use crate::stops::FillStop;
use mail_words::{Key, lane_of};
use tx_buckets::{find, read_word};
use tx_heap::{MailSense, open_segment};
use tx_model::laws::pass_knows;
use tx_model::{Stop, TxMemory};

/// How many words a key takes: a record and a cell, or a cell where it has a record.
fn words_for(offset: Option<u64>) -> u64
    ensures { result ≡ words_for offset }
{
    match offset {
        None => 8,
        Some(_) => 2,
    }
}

// What is known of a lane's own segment, which is read where nothing is known yet.
fn head_of<M: TxMemory<MailSense>>(
    mem: &M,
    pass: &mut M::Pass,
    lane: u64,
    known: Option<Head>,
) -> Result<Head, Stop>
    requires of { M.of mem.now pass.old }
    requires active { (M.view pass.old).state ≡ Active }
    requires none { ((M.attempt pass.old).writes ≡ []) × ((M.attempt pass.old).published ≡ []) }
    requires lane { lane < 8 }
    requires known { (head : Head) → known ≡ Some head → IsHead (M.made mem.now) (M.view pass.old) (M.attempt pass.old) lane head }
    ensures of { M.of mem.now pass.new }
    ensures head { IfOk result (HasHead (M.made mem.now) (M.view pass.old) (M.view pass.new) (M.attempt pass.old) (M.attempt pass.new) lane known) }
    ensures cause { IfErr result (IsStopped (M.shows mem.now) (M.made mem.now).opening (M.view pass.old) (M.view pass.new) (M.attempt pass.old)) }
{
    match known {
        Some(head) => Ok(head),
        None => {
            let segment = open_segment(mem, pass, lane)?;
            let free = read_word(mem, pass, segment, FREE)?;
            let keys = read_word(mem, pass, segment, KEYS)?;
            let cells = read_word(mem, pass, segment, CELLS)?;
            Ok(Head {
                segment,
                free,
                keys,
                cells,
                needs: 0,
            })
        }
    }
}

// Looks for a key in its lane's own segment, and counts the words that it takes there.
fn look_at<M: TxMemory<MailSense>>(
    mem: &M,
    pass: &mut M::Pass,
    key: &Key,
    heads: &mut [Option<Head>],
) -> Result<Option<u64>, Stop>
    requires of { M.of mem.now pass.old }
    requires active { (M.view pass.old).state ≡ Active }
    requires none { ((M.attempt pass.old).writes ≡ []) × ((M.attempt pass.old).published ≡ []) }
    requires many { length heads.old ≡ 8 }
    requires heads { (lane : ℕ) (head : Head) → slice_index_or heads.old lane None ≡ Some head
        → IsHead (M.made mem.now) (M.view pass.old) (M.attempt pass.old) lane head }
    requires small { (lane : ℕ) → needs_of (slice_index_or heads.old lane None) ≤ 120 }
    ensures of { M.of mem.now pass.new }
    ensures many { length heads.new ≡ length heads.old }
    ensures looked { IfOk result
        (LookedAt (M.made mem.now) (M.view pass.old) (M.view pass.new) (M.attempt pass.old) (M.attempt pass.new) key.now heads.old heads.new) }
    ensures cause { IfErr result (IsStopped (M.shows mem.now) (M.made mem.now).opening (M.view pass.old) (M.view pass.new) (M.attempt pass.old)) }
{
    let lane = lane_of(key);
    let head = head_of(mem, pass, lane, heads[lane as usize])?;
    let offset = find(mem, pass, head.segment, key)?;
    heads[lane as usize] = Some(Head {
        needs: head.needs + words_for(offset),
        ..head
    });
    Ok(offset)
}

// Looks for all keys in the own segments of their lanes, and whether these have room for them.
pub(crate) fn look_up<M: TxMemory<MailSense>>(
    mem: &M,
    pass: &mut M::Pass,
    keys: &[Key],
    offsets: &mut [Option<u64>],
    heads: &mut [Option<Head>],
) -> Result<(), FillStop>
    requires of { M.of mem.now pass.old }
    requires active { (M.view pass.old).state ≡ Active }
    requires none { ((M.attempt pass.old).writes ≡ []) × ((M.attempt pass.old).published ≡ []) }
    requires keys { length keys.now ≤ 16 }
    requires offsets { length keys.now ≤ length offsets.old }
    requires many { length heads.old ≡ 8 }
    requires empty { (lane : ℕ) → slice_index_or heads.old lane None ≡ None }
    ensures of { M.of mem.now pass.new }
    ensures many { length offsets.new ≡ length offsets.old }
    ensures looked { IfOk result
        (λ _. LookedUp (M.made mem.now) (M.view pass.old) (M.view pass.new) (M.attempt pass.old) (M.attempt pass.new) keys.now offsets.new heads.new) }
    ensures refused { IfErr result (LookRefused (M.made mem.now) (M.shows mem.now) (M.view pass.old) (M.view pass.new) (M.attempt pass.old) keys.now) }
{
    pass_knows(mem, pass);
    for k in 0..keys.len() {
        offsets[k] = look_at(mem, pass, &keys[k], heads)?;
        pass_knows(mem, pass);
    }
    let Some((lane, head)) = lowest_that_lacks(heads) else {
        return Ok(());
    };
    mem.give_up(pass);
    Err(FillStop::Room {
        lane,
        segment: head.segment,
        free: free_words(head),
        needs: head.needs,
    })
}
