//! Firings at a leaf that differ from those at a mid.

use super::scene::Change::{Down, Field, Up, Value};
use super::scene::{
    Fires, GET, GET_R, INV, LD, M, NOTHING, S, Scene, Stays, TAKES_REQUEST, fires, held, message,
    stays,
};
use hem_fire::To;
use hem_object::By;

/// Both locks are free, and no child has answered.
const CALM: Scene = Scene {
    field: S,
    dir: &[],
    up: None,
    down: None,
    request: Some(message!(GET 3)),
    parent: Some(message!(INV 8)),
    kids: &[],
};

/// Both locks are held for a requester, and all that is awaited has come.
const CHILD: Scene = Scene {
    field: S,
    dir: &[],
    up: held!(By::Processor; GET 4; 0),
    down: held!(By::Processor; GET 9; 0),
    request: Some(message!(GET 3)),
    parent: Some(message!(INV 8)),
    kids: &[],
};

/// All lists are empty.
const EMPTY: Scene = Scene {
    field: S,
    dir: &[],
    up: held!(By::Processor; GET 4; 0),
    down: held!(By::Processor; GET 9; 0),
    request: None,
    parent: None,
    kids: &[],
};

/// The heads are other messages.
const OTHER: Scene = Scene {
    field: S,
    dir: &[],
    up: held!(By::Processor; GET 4; 0),
    down: held!(By::Processor; GET 9; 0),
    request: Some(message!(LD 3)),
    parent: Some(message!(GET_R 8)),
    kids: &[],
};

/// Firings that are possible.
pub(super) static FIRES: [Fires; 10] = [
    fires!("take_me", None, CALM => [] TAKES_REQUEST; To::Nobody, NOTHING),
    fires!("others_all", None, CALM => [] TAKES_REQUEST; To::Nobody, NOTHING),
    fires!("set_st", None, CALM => [Field(M)] TAKES_REQUEST; To::Nobody, NOTHING),
    fires!("val_msg", None, CALM => [Value(3)] TAKES_REQUEST; To::Nobody, NOTHING),
    fires!("send_me", None, CALM => [] TAKES_REQUEST; To::Answer, message!(GET_R 7)),
    fires!("send_up_request", None, CALM => [] TAKES_REQUEST; To::UpRequest, message!(GET 3)),
    fires!("lock_up_child", None, CALM => [Up(held!(By::Processor; GET 3; 0))] TAKES_REQUEST; To::Nobody, NOTHING),
    fires!("lock_up_parent", None, CALM => [Up(held!(By::Parent; GET 3; 0))] TAKES_REQUEST; To::Nobody, NOTHING),
    fires!("lock_down_self", None, CALM => [Down(held!(By::Own; GET 3; 0))] TAKES_REQUEST; To::Nobody, NOTHING),
    fires!("miss", None, CALM => [Up(held!(By::Processor; GET 3; 0))] TAKES_REQUEST; To::UpRequest, message!(GET 3)),
];

/// Firings that are not possible.
pub(super) static STAYS: [Stays; 17] = [
    stays!("take_me", None, EMPTY;),
    stays!("take_me", None, OTHER;),
    stays!("take_me", Some(0), CALM;),
    stays!("take_kids", None, EMPTY;),
    stays!("me_in", None, CALM;),
    stays!("kids_any", None, CALM;),
    stays!("others_any", None, CALM;),
    stays!("set_me", None, CALM;),
    stays!("targets_of_me", None, CALM;),
    stays!("val_kept_of_me", None, CALM;),
    stays!("send_kids", None, CALM;),
    stays!("send_others", None, CALM;),
    stays!("lock_down_child", None, CALM;),
    stays!("lock_down_parent", None, CALM;),
    stays!("lock_on", None, OTHER;),
    stays!("mixture", None, CALM;),
    stays!("miss", None, CHILD;),
];
