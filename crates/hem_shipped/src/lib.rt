//! The four protocols that documents can name.
#![tactic(auto)]

mod mesi_inclusive;
mod mesi_noninclusive;
mod msi_inclusive;
mod msi_noninclusive;
mod names;

pub use mesi_inclusive::MESI_INCLUSIVE;
pub use mesi_noninclusive::MESI_NONINCLUSIVE;
pub use msi_inclusive::MSI_INCLUSIVE;
pub use msi_noninclusive::MSI_NONINCLUSIVE;
pub use names::shipped;
