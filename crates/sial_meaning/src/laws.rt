//! Laws of the meaning that proofs above cite, with nothing to run.

mod along;
mod closed;
mod control;
mod course;
mod deeds;
mod epochs;
mod rest;

pub use along::{
    counts_along_the_course, epochs_along_the_course, partials_are_sums, points_are_whole,
    writes_fit_their_blocks,
};
pub use closed::closed_names_are_open;
pub use control::statements_do_what_they_ask_for;
pub use course::{course_follows_the_fold, pardos_keep_the_control};
pub use deeds::{deeds_of_one_kind, iterations_are_their_deeds, steps_take_the_first_part_off};
pub use epochs::epochs_agree_up_to_the_first_refusal;
pub use rest::steps_reach_the_fold;
