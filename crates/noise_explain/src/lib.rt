//! What a pattern text or a vector file says and what is wrong with it, in sentences: where the fault stands, and what
//! corrects it. Also the vector file that a pattern needs, with a placeholder for each key, or what a file gives for
//! it.
#![tactic(auto)]

mod advice;
mod all_rules;
mod block_changes;
mod block_sentences;
mod change;
mod choice;
mod column;
mod difference;
mod excerpt;
mod expected;
mod expected_forms;
mod explanation;
mod fact_words;
mod facts;
mod fixing;
mod frame_piece;
mod judged;
mod key_lines;
mod keys;
mod known;
mod line_column;
mod line_place;
mod line_sentences;
mod line_shapes;
mod mixed;
mod needs;
mod other_lines;
mod parties;
mod piece_lines;
mod places;
mod position;
mod rule_changes;
mod rule_place;
mod rule_sentences;
mod run_counts;
mod run_sentences;
mod setup_sentences;
mod shapes;
mod state_part;
mod text;
mod text_advice;
mod text_changes;
mod tidy;
mod values;
mod vector_explanation;
mod word_faults;
mod word_sentences;

pub use choice::{named_template, names_protocol, spelled_template};
pub use difference::difference_line;
pub use excerpt::unread_head;
pub use expected::wrong_line_text;
pub use explanation::{Explained, explain, explain_long};
pub use fixing::fixed;
pub use key_lines::{KeyFileFault, LineFault, read_given};
pub use run_counts::{Act, RunCounts};
pub use text::template;
pub use values::{Given, Place};
pub use vector_explanation::{
    explain_line, explain_start, explain_vector, is_vector_text, pattern_in,
};
