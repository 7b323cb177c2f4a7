//! Works: the reader of a work's text, and lawful works with the requests of each leaf and line.
#![tactic(auto)]

mod draft;
mod faults;
mod generator;
mod laws;
mod limits;
mod made;
mod raw;
mod rows;
mod work;

pub use draft::{Item, Terminal, WorkDraft};
pub use generator::Generator;
pub use laws::faultless_works_are_lawful;
pub use raw::{RawEntry, RawWork, read_work};
pub use work::Work;
