//! The grammar of scripts: from the bytes of one line to what it says.
#![tactic(auto)]

mod bound;
mod command;
mod escape;
mod hex;
mod key;
mod laws;
mod lent_laws;
mod line;
mod literal;
mod marked;
mod name;
mod number;
mod operand;
mod script;
mod script_laws;
mod shape;
mod source;
mod stop;
mod text;
mod text_laws;
mod types;
mod verb;
mod why;
mod why_literal;
mod why_operand;
mod word;
mod worked;
mod write;
mod write_laws;
mod write_text;

pub use laws::{
    equal_keys_keep_the_first_key_and_the_last_value, one_command, one_literal,
    skipped_says_nothing,
};
pub use lent_laws::{commands_that_bring_nothing_are_lent, worked_lent_lines};
pub use line::{Reading, read_line};
pub use script::{ScriptError, script_text, write_script};
pub use script_laws::{
    script_lines_are_said, scripts_make_their_states, worked_scripts, written_contexts_are_said,
};
pub use stop::{Expectation, Expected};
pub use text::{TakenText, take_text};
pub use text_laws::{one_closing_quote, one_text, text_is_utf8, worked_texts};
pub use why::expected;
pub use worked::{
    worked_bad_maps, worked_bad_values, worked_calls, worked_faults, worked_maps, worked_names,
    worked_skips, worked_values,
};
pub use write::{LiteralError, literal_text, write_literal};
pub use write_laws::{
    literals_are_read_back, what_is_written_prints, worked_literals, written_lines_are_said,
    written_values_are_read_back,
};
