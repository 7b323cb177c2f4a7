//! The texts by their names.

ghost use Rattle.std.specs.Prelude.{◌≡◌, ◌<◌, length, IfSome};
ghost use Rattle.std.specs.Option.{option_copied};
ghost use Rattle.hem_shipped.specs.Texts.{text_of};

use crate::{mesi_inclusive, mesi_noninclusive, msi_inclusive, msi_noninclusive};

/// The canonical text of the shipped protocol of that name, and None where no shipped protocol has it.
pub fn shipped(name: &[u8]) -> Option<&'static str>
    ensures same { option_copied result ≡ text_of name.now }
    ensures short { IfSome result (λ text. length text.now < 65536) }
{
    if name == b"msi_inclusive".as_slice() {
        Some(msi_inclusive::text())
    } else if name == b"mesi_inclusive".as_slice() {
        Some(mesi_inclusive::text())
    } else if name == b"msi_noninclusive".as_slice() {
        Some(msi_noninclusive::text())
    } else if name == b"mesi_noninclusive".as_slice() {
        Some(mesi_noninclusive::text())
    } else {
        None
    }
}
