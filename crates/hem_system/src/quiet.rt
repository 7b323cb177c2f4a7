//! Quiet objects and lines.

ghost use Rattle.std.specs.Prelude.{◌≡◌, ◌&&◌};
ghost use Rattle.std.specs.List.{list_all};
ghost use Rattle.hem_system.specs.Cells.{seen};
ghost use Rattle.hem_system.specs.Quiet.{has_no_message, has_no_lock, is_idle};

use crate::cell::Cell;
use hem_base::List;
use hem_object::Local;

/// Whether an object has no message but answers.
fn has_no_message(cell: &Cell) -> bool
    ensures { result ≡ has_no_message (seen cell.now) }
{
    cell.up_requests.as_slice().is_empty()
        && cell.up_responses.as_slice().is_empty()
        && cell.down.as_slice().is_empty()
        && cell.requests.as_slice().is_empty()
}

/// Whether an object holds no lock.
fn has_no_lock(local: &Local) -> bool
    ensures { result ≡ has_no_lock local.now }
{
    local.up.is_none() && local.down.is_none()
}

/// Whether an object has no message but answers, and holds no lock.
fn is_idle(cell: &Cell) -> bool
    ensures { result ≡ is_idle (seen cell.now) }
{
    has_no_message(cell) && has_no_lock(&cell.local)
}

/// Whether all objects of a line have no message but answers, and hold no lock.
fn is_line_idle(cells: &[Cell]) -> bool
    ensures { result ≡ list_all (λ cell. is_idle (seen cell)) cells.now }
{
    cells.iter().all(|cell| is_idle(cell))
}

/// Whether all objects of all lines have no message but answers, and hold no lock.
pub(crate) fn are_idle(lines: &[List<Cell>]) -> bool
    ensures { result ≡ list_all (λ line. list_all (λ cell. is_idle (seen cell)) line) lines.now }
{
    lines.iter().all(|cells| is_line_idle(cells.as_slice()))
}
