//! Firings at a mid: each part of a rule.

use super::scene::Change::{Down, Entry, Field, Up, Value};
use super::scene::{
    Fires, GET, GET_R, I, INV, INV_R, LD, LD_R, M, NOTHING, S, Scene, Stays, TAKES_NOTHING,
    TAKES_PARENT, TAKES_REQUEST, Taken, fires, held, message, responses, stays,
};
use hem_base::KidSet;
use hem_fire::To;
use hem_object::By;

/// Both locks are free, and no child has answered.
const CALM: Scene = Scene {
    field: S,
    dir: &[S, M, I],
    up: None,
    down: None,
    request: Some(message!(GET 3)),
    parent: Some(message!(INV 8)),
    kids: &[None, None, None],
};

/// Both locks are held for a requester, and all that is awaited has come.
const CHILD: Scene = Scene {
    field: S,
    dir: &[S, M, I],
    up: held!(By::Kid(1); GET 4; 0),
    down: held!(By::Kid(0); GET 9; 6),
    request: Some(message!(GET 3)),
    parent: Some(message!(INV 8)),
    kids: &[None, Some(message!(INV_R 5)), Some(message!(INV_R 6))],
};

/// Both locks are held for the object itself.
const OWN: Scene = Scene {
    field: M,
    dir: &[S, S, I],
    up: held!(By::Own; INV 4; 0),
    down: held!(By::Own; INV 8; 2),
    request: Some(message!(GET 3)),
    parent: Some(message!(INV 8)),
    kids: &[Some(message!(INV_R 2)), Some(message!(INV_R 5)), None],
};

/// Both locks are held for the parent.
const PARENT: Scene = Scene {
    field: I,
    dir: &[I, I, I],
    up: held!(By::Parent; LD 4; 0),
    down: held!(By::Parent; INV 8; 5),
    request: Some(message!(GET 3)),
    parent: Some(message!(INV 8)),
    kids: &[
        Some(message!(INV_R 2)),
        Some(message!(INV_R 5)),
        Some(message!(INV_R 6)),
    ],
};

/// The child for which the downlock is held is itself awaited.
const AWAITED: Scene = Scene {
    field: S,
    dir: &[S, M, S],
    up: None,
    down: held!(By::Kid(1); GET 9; 6),
    request: Some(message!(GET 3)),
    parent: Some(message!(INV 8)),
    kids: &[None, Some(message!(INV_R 5)), Some(message!(INV_R 6))],
};

/// The uplock alone is held, for the child 1.
const ASKED: Scene = Scene {
    field: S,
    dir: &[S, I],
    up: held!(By::Kid(1); GET 4; 0),
    down: None,
    request: None,
    parent: Some(message!(INV 8)),
    kids: &[None, None],
};

/// The downlock is held for the parent, and the uplock for the object itself.
const ANSWERING: Scene = Scene {
    field: S,
    dir: &[S, I],
    up: held!(By::Own; GET 4; 0),
    down: held!(By::Parent; INV 8; 1),
    request: None,
    parent: Some(message!(INV 8)),
    kids: &[Some(message!(INV_R 2)), None],
};

/// All lists are empty.
const EMPTY: Scene = Scene {
    field: S,
    dir: &[S, M, I],
    up: held!(By::Kid(1); GET 4; 0),
    down: held!(By::Kid(0); GET 9; 6),
    request: None,
    parent: None,
    kids: &[None, None, None],
};

/// The heads are other messages.
const OTHER: Scene = Scene {
    field: S,
    dir: &[S, M, I],
    up: held!(By::Kid(1); GET 4; 0),
    down: held!(By::Kid(0); GET 9; 6),
    request: Some(message!(LD 3)),
    parent: Some(message!(GET_R 8)),
    kids: &[None, Some(message!(INV_R 5)), Some(message!(GET_R 6))],
};

/// One of the awaited responses is missing.
const MISSING: Scene = Scene {
    field: S,
    dir: &[S, M, I],
    up: None,
    down: held!(By::Kid(0); GET 9; 6),
    request: Some(message!(GET 3)),
    parent: Some(message!(INV 8)),
    kids: &[None, Some(message!(INV_R 5)), None],
};

/// Firings that are possible.
pub(super) static FIRES: [Fires; 64] = [
    fires!("take_me", Some(1), CALM => [] TAKES_REQUEST; To::Nobody, NOTHING),
    fires!("take_parent", None, CALM => [] TAKES_PARENT; To::Nobody, NOTHING),
    fires!("take_kids", None, CHILD => [] responses!(6); To::Nobody, NOTHING),
    fires!("take_kids", None, OWN => [] responses!(2); To::Nobody, NOTHING),
    fires!("take_kids", None, PARENT => [] responses!(5); To::Nobody, NOTHING),
    fires!("take_none", None, CALM => [] TAKES_NOTHING; To::Nobody, NOTHING),
    fires!("up_free", None, CALM => [] TAKES_NOTHING; To::Nobody, NOTHING),
    fires!("up_child", None, CHILD => [] TAKES_NOTHING; To::Nobody, NOTHING),
    fires!("up_parent", None, PARENT => [] TAKES_NOTHING; To::Nobody, NOTHING),
    fires!("up_self", None, OWN => [] TAKES_NOTHING; To::Nobody, NOTHING),
    fires!("down_free", None, CALM => [] TAKES_NOTHING; To::Nobody, NOTHING),
    fires!("down_child", None, CHILD => [] TAKES_NOTHING; To::Nobody, NOTHING),
    fires!("down_parent", None, PARENT => [] TAKES_NOTHING; To::Nobody, NOTHING),
    fires!("down_self", None, OWN => [] TAKES_NOTHING; To::Nobody, NOTHING),
    fires!("st_in", None, CALM => [] TAKES_NOTHING; To::Nobody, NOTHING),
    fires!("me_in", Some(1), CALM => [] TAKES_REQUEST; To::Nobody, NOTHING),
    fires!("me_of_parent", None, CHILD => [] TAKES_PARENT; To::Nobody, NOTHING),
    fires!("me_of_kids", None, CHILD => [] responses!(6); To::Nobody, NOTHING),
    fires!("kids_all", None, OWN => [] TAKES_NOTHING; To::Nobody, NOTHING),
    fires!("kids_all", None, PARENT => [] TAKES_NOTHING; To::Nobody, NOTHING),
    fires!("kids_any", None, CALM => [] TAKES_NOTHING; To::Nobody, NOTHING),
    fires!("others_all", Some(1), CALM => [] TAKES_REQUEST; To::Nobody, NOTHING),
    fires!("others_all", Some(0), OWN => [] TAKES_REQUEST; To::Nobody, NOTHING),
    fires!("others_any", Some(0), CALM => [] TAKES_REQUEST; To::Nobody, NOTHING),
    fires!("asked_up", None, CHILD => [] TAKES_PARENT; To::Nobody, NOTHING),
    fires!("asked_down", None, CHILD => [] responses!(6); To::Nobody, NOTHING),
    fires!("set_st", Some(1), CALM => [Field(M)] TAKES_REQUEST; To::Nobody, NOTHING),
    fires!("set_me", Some(1), CALM => [Entry(1, I)] TAKES_REQUEST; To::Nobody, NOTHING),
    fires!("set_targets", None, OWN => [Entry(1, I)] responses!(2); To::Nobody, NOTHING),
    fires!("set_targets", None, PARENT => [] responses!(5); To::Nobody, NOTHING),
    fires!("set_me_and_targets", None, CHILD => [Entry(0, M), Entry(1, I)] responses!(6); To::Nobody, NOTHING),
    fires!("set_me_and_targets", None, AWAITED => [Entry(2, I)] responses!(6); To::Nobody, NOTHING),
    fires!("val_msg", Some(1), CALM => [Value(3)] TAKES_REQUEST; To::Nobody, NOTHING),
    fires!("val_kept_up", None, CHILD => [Value(4)] TAKES_PARENT; To::Nobody, NOTHING),
    fires!("val_kept_down", None, CHILD => [Value(9)] responses!(6); To::Nobody, NOTHING),
    fires!("val_rs", None, CHILD => [Value(5)] responses!(6); To::Nobody, NOTHING),
    fires!("val_rs", None, PARENT => [Value(2)] responses!(5); To::Nobody, NOTHING),
    fires!("val_zero", None, CALM => [Value(0)] TAKES_NOTHING; To::Nobody, NOTHING),
    fires!("send_me", Some(1), CALM => [] TAKES_REQUEST; To::Kid(1), message!(GET_R 7)),
    fires!("send_me_of_parent", None, CHILD => [] TAKES_PARENT; To::Kid(1), message!(GET_R 8)),
    fires!("send_me_of_kids", None, CHILD => [] responses!(6); To::Kid(0), message!(GET_R 9)),
    fires!("send_up_response", None, CALM => [Value(0)] TAKES_NOTHING; To::UpResponse, message!(INV_R 7)),
    fires!("send_up_request", Some(1), CALM => [] TAKES_REQUEST; To::UpRequest, message!(GET 3)),
    fires!("send_kids", None, CALM => [] TAKES_NOTHING; To::Kids(KidSet(3)), message!(INV 7)),
    fires!("send_others", Some(1), CALM => [Entry(1, S)] TAKES_REQUEST; To::Kids(KidSet(5)), message!(INV 0)),
    fires!("send_others", Some(0), CALM => [] TAKES_REQUEST; To::Kids(KidSet(4)), message!(INV 0)),
    fires!("lock_up_child", Some(1), CALM => [Up(held!(By::Kid(1); GET 3; 0))] TAKES_REQUEST; To::Nobody, NOTHING),
    fires!("lock_up_parent", Some(1), CALM => [Up(held!(By::Parent; GET 3; 0))] TAKES_REQUEST; To::Nobody, NOTHING),
    fires!("lock_up_self", None, CALM => [Up(held!(By::Own; GET 7; 0))] TAKES_NOTHING; To::UpRequest, message!(GET 7)),
    fires!("lock_down_child", Some(1), CALM => [Down(held!(By::Kid(1); GET 3; 5))] TAKES_REQUEST; To::Kids(KidSet(5)), message!(INV 0)),
    fires!("lock_down_child", Some(0), CALM => [Down(held!(By::Kid(0); GET 3; 4))] TAKES_REQUEST; To::Kids(KidSet(4)), message!(INV 0)),
    fires!("lock_down_parent", None, CALM => [Down(held!(By::Parent; INV 7; 3))] TAKES_NOTHING; To::Kids(KidSet(3)), message!(INV 7)),
    fires!("lock_down_self", Some(1), CALM => [Down(held!(By::Own; GET 3; 0))] TAKES_REQUEST; To::Nobody, NOTHING),
    fires!("free_up", None, CHILD => [Up(None)] TAKES_NOTHING; To::Nobody, NOTHING),
    fires!("free_down", None, CHILD => [Down(None)] TAKES_NOTHING; To::Nobody, NOTHING),
    fires!("lock_again", None, OTHER => [Up(held!(By::Own; GET 4; 0))] TAKES_PARENT; To::UpResponse, message!(INV_R 0)),
    fires!("lock_on", None, OTHER => [Up(None), Down(held!(By::Kid(1); GET 4; 5))] TAKES_PARENT; To::Kids(KidSet(5)), message!(INV 8)),
    fires!("lock_same", None, CHILD => [Down(held!(By::Parent; GET 9; 3))] responses!(6); To::Kids(KidSet(3)), message!(INV 5)),
    fires!("lock_same", None, OWN => [Down(held!(By::Parent; INV 8; 3))] responses!(2); To::Kids(KidSet(3)), message!(INV 5)),
    fires!("mixture", Some(1), CALM => [Field(M), Value(3), Entry(1, I), Down(held!(By::Kid(1); GET 3; 1))] TAKES_REQUEST; To::Kids(KidSet(1)), message!(INV 7)),
    fires!("join", None, AWAITED => [Value(5), Entry(2, I), Down(None)] responses!(6); To::Kid(1), message!(GET_R 9)),
    fires!("pass", None, ASKED => [Entry(1, S), Down(held!(By::Parent; INV 8; 1))] TAKES_PARENT; To::Kids(KidSet(1)), message!(INV 8)),
    fires!("give_back", None, ANSWERING => [Value(2), Entry(0, I), Down(None)] responses!(1); To::UpResponse, message!(INV_R 2)),
    fires!("answer", None, OTHER => [Field(M), Value(8), Up(None)] TAKES_PARENT; To::Kid(1), message!(LD_R 4)),
];

/// Firings that are not possible.
pub(super) static STAYS: [Stays; 48] = [
    stays!("take_me", Some(1), EMPTY;),
    stays!("take_me", Some(1), OTHER;),
    stays!("take_me", None, CALM;),
    stays!("take_me", Some(3), CALM;),
    stays!("take_parent", None, EMPTY;),
    stays!("take_parent", None, OTHER;),
    stays!("take_kids", None, CALM;),
    stays!("take_kids", None, OTHER;),
    stays!("take_kids", None, MISSING;),
    stays!("take_none", Some(0), CALM;),
    stays!("up_free", None, CHILD;),
    stays!("up_child", None, CALM;),
    stays!("up_parent", None, CALM;),
    stays!("up_self", None, CALM;),
    stays!("down_free", None, CHILD;),
    stays!("down_child", None, CALM;),
    stays!("down_parent", None, CALM;),
    stays!("down_self", None, CALM;),
    stays!("st_in", None, PARENT;),
    stays!("me_in", Some(0), CALM;),
    stays!("me_of_parent", None, CALM;),
    stays!("me_of_kids", None, OWN;),
    stays!("me_of_none", None, CALM;),
    stays!("kids_all", None, CALM;),
    stays!("kids_any", None, PARENT;),
    stays!("others_all", Some(0), CALM;),
    stays!("others_any", Some(1), CALM;),
    stays!("others_of_none", None, CALM;),
    stays!("asked_up", None, CALM;),
    stays!("asked_down", None, OWN;),
    stays!("set_me_and_targets", None, OWN;),
    stays!("targets_of_me", Some(1), CALM;),
    stays!("val_msg_of_kids", None, CHILD;),
    stays!("val_kept_up", None, CALM;),
    stays!("val_kept_of_me", Some(1), CALM;),
    stays!("send_me_of_parent", None, CALM;),
    stays!("send_me_of_kids", None, OWN;),
    stays!("send_me_of_none", None, CALM;),
    stays!("send_kids", None, PARENT;),
    stays!("lock_down_parent", None, PARENT;),
    stays!("lock_of_nothing", None, CALM;),
    stays!("lock_for_nobody", None, CALM;),
    stays!("lock_same", None, PARENT;),
    stays!("mixture", Some(0), CALM;),
    stays!("join", None, MISSING;),
    stays!("pass", None, CALM;),
    stays!("give_back", None, CHILD;),
    stays!("miss", Some(1), CALM;),
];
