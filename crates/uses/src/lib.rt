//! Programs over the libraries, as a stranger to them would write them.
#![tactic(auto)]

mod checks;
mod contexts;
mod filters;
mod lists;
mod look_ups;
mod maps;
mod merges;
mod nested;
mod ordered;
mod picks;
mod render;
mod replays;
mod reports;
mod rules;
mod runs;
mod sorted;
mod sums;

pub use checks::require_numbers;
pub use contexts::{escaped_print, is_one, mean_the_same};
pub use filters::{join, or_default, truncate};
pub use lists::last_items;
pub use look_ups::{field_names, found_or};
pub use maps::{flags, is_on, settings, values_in_order};
pub use merges::merged;
pub use nested::{nested_text, nested_value};
pub use ordered::{sizes, sizes_text};
pub use picks::picked;
pub use render::{Piece, render_pieces};
pub use replays::{replay_bad_line, replay_calls, replay_pieces};
pub use reports::show_error;
pub use rules::{Rule, follow};
pub use runs::{run_with, step_and_run};
pub use sorted::sorted_unique;
pub use sums::{average, sum_of_array, sum_of_names};
