//! The making of a crew: the channels of all edges of the tree, and a worker for each object.
#![tactic(auto)]

mod crew;
mod edges;

pub use crew::make_crew;
