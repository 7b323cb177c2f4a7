//! The rules of a protocol as modules of guarded rules: their registers and queues, the image of a line in them, and the
//! clauses and actions of each rule. Each function does nothing, and its contract is a law.
#![tactic(auto)]

mod by_place;
mod laws;
mod written;

pub use by_place::{
    module_rules_name_what_is_there, registers_and_queues_have_one_place_each,
    rules_are_named_after_firings, steps_over_numbers_are_steps_over_names,
};
pub use laws::{
    actions_append_as_firings_send, actions_change_registers_as_firings_do,
    actions_take_heads_as_firings_do, clauses_hold_where_rules_can_fire, images_tell_lines,
    module_rules_step_as_firings_do, reached_lines_have_images,
    rules_step_where_firings_are_possible,
};
pub use written::{
    modules_match_the_protocol, modules_may_be_written, written_rules_step_as_firings_do,
};
