//! The blocks of a history in the printed order, found in near-linear time with counts of open predecessors.
#![tactic(auto)]

mod blocks;
mod firings;
mod graph;
mod known;
mod last;
mod laws;
mod lists;
mod member;
mod normal;
mod numbered;
mod order;
mod ranked;
mod ranks;
mod ready;
mod regrouping;
mod replayed;
mod tops;
mod upward;

pub use laws::{neighbours_give_the_order, numbered_firings_give_the_printed_blocks};
pub use regrouping::{RegroupFault, regroup};
pub use replayed::{Regrouped, replay_and_regroup};
