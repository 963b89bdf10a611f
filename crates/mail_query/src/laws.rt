//! What the definitions say of examples, and laws about them. The functions do nothing: their contracts are the statements.
mod answers;
mod queries;

pub use answers::{
    answer_lines, answers_over_three_messages, answers_rise, bits_of_numbers, keys_of_a_query,
    messages_of_a_key, pairs_of_three_messages, table_of_two_lists, tables_in_order,
    truth_by_cases, truth_over_three_messages,
};
pub use queries::{
    bad_texts, deepest_text, first_of_two_refusals, longest_run, longest_text, one_reading,
    printed_form_reads_back, refused_or_read, spaces_and_capitals, what_binds_tighter,
};
