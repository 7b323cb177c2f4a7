//! Abstract states.

use arrayvec::ArrayVec;
use hem_base::{Status8, StatusSet};
use std::marker::Model;

/// What a guard that names no requester can see of an object: a status for each field of its kind, and the statuses that
/// occur among its children. A leaf has no children.
#[derive(Drop)]
pub struct Abstract {
    /// The status of each field of the object's kind.
    pub fields: ArrayVec<Status8, 3>,
    /// The statuses that occur among the children.
    pub kids: StatusSet,
}

impl Model for Abstract {
    ghost use Rattle.hem_abstract.specs.Abstract.{Abstract as Seen};

    ghost Value = { Seen };

    ghost view = { λ a. record { fields = a.fields.items; kids = a.kids } };
}
