//! Facts about every memory and about the definitions, and worked examples, each the contract of a function that does nothing.
mod examples;
mod facts;
mod memories;
mod rules;
mod shares;
mod words;

pub use examples::{
    attempt_call_examples, attempt_examples, commit_call_examples, commit_examples,
    history_examples, holder_examples, holds_examples, known_examples, may_read_examples,
    may_write_examples, memory_examples, name_examples, opacity_examples, pass_examples,
    reads_examples, refused_examples, region_examples, sense_examples, split_examples,
    stop_examples, try_examples,
};
pub use facts::{made_well, pass_knows, reads_one_state, whole_never_stops};
pub use memories::{budget_bounds, memory_laws, merged_stamps, state_laws};
pub use rules::{attempts_follow, commits_follow, gates_along, rule_examples, seal_examples};
pub use shares::{joined_shares, rejoined_share, share_examples, split_shares, whole_share};
pub use words::{put_addresses, put_examples, put_values, value_exactly, value_examples};
