//! Small uses of any transaction memory, proved from its contract alone.
#![tactic(auto)]

mod apart;
mod countdown;
pub mod laws;
mod raise;
mod raising;
mod reads;

pub use apart::{ApartStop, Seen, SeenStop, raise_apart, raise_then_read};
pub use countdown::Countdown;
pub use raise::{Raise, RaiseRefusal};
pub use raising::raise_word;
pub use reads::{read_now, read_two};
