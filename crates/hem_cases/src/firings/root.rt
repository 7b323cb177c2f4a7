//! Firings at a root that differ from those at a mid.

use super::scene::{Fires, GET, I, INV, M, S, Scene, Stays, TAKES_NOTHING, fires, message, stays};
use hem_base::KidSet;
use hem_fire::To;

/// Both locks are free, and no child has answered.
const CALM: Scene = Scene {
    field: S,
    dir: &[S, M, I],
    up: None,
    down: None,
    request: Some(message!(GET 3)),
    parent: None,
    kids: &[None, None, None],
};

/// Firings that are possible.
pub(super) static FIRES: [Fires; 1] = [
    fires!("send_kids", None, CALM => [] TAKES_NOTHING; To::Kids(KidSet(3)), message!(INV 7)),
];

/// Firings that are not possible.
pub(super) static STAYS: [Stays; 3] = [
    stays!("send_up_response", None, CALM;),
    stays!("send_up_request", Some(1), CALM;),
    stays!("lock_up_self", None, CALM;),
];
