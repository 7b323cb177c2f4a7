//! The table of templates.

ghost use Rattle.std.specs.Prelude.{◌≡◌};
ghost use Rattle.std.specs.Prelude.{true, false, None, Some};
ghost use Rattle.hem_syntax.specs.declared.rule.Hold.TheVariants.{Any, Free};
ghost use Rattle.hem_syntax.specs.declared.rule.Side.TheVariants.{Up, Down};
ghost use Rattle.hem_template.specs.Template.{row_of};
ghost use Rattle.hem_template.specs.declared.row.Taking.TheVariants.{ParentResponse, FromKids};

use crate::TemplateName;
use hem_syntax::{Hold, Origin, Side};

/// What a template takes.
#[derive(Clone, Copy, Debug, PartialEq, Eq)]
pub enum Taking {
    NothingTaken,
    /// A request of the child for which the rule works, on a leaf of the processor.
    FromRequester,
    ParentRequest,
    ParentResponse,
    /// The response of every awaited child.
    FromKids,
}

/// What a template sends.
#[derive(Clone, Copy, Debug, PartialEq, Eq)]
pub enum Sending {
    NothingSent,
    /// An answer to the child for which the rule works, on a leaf to the processor.
    ToRequester,
    RequestUp,
    ResponseUp,
    /// A request to children, but not to the one for which the rule works.
    ToOthers,
    /// A request to children.
    ToKids,
}

/// A row of the table of templates: what a rule of the template takes, needs, frees, locks and sends, and whether it may set.
#[derive(Clone, Copy, Debug, PartialEq, Eq)]
pub struct Row {
    pub taking: Taking,
    pub up: Hold,
    pub down: Hold,
    pub may_set: bool,
    pub frees: Option<Side>,
    /// The lock that is taken, and for whom.
    pub locks: Option<(Side, Origin)>,
    pub sending: Sending,
}

/// All templates, in the order of the table.
pub(crate) static TEMPLATES: [TemplateName; 14] = [
    TemplateName::ImmSelf,
    TemplateName::ImmDown,
    TemplateName::ImmUp,
    TemplateName::RqUp,
    TemplateName::RqUpSelf,
    TemplateName::RqUpDown,
    TemplateName::RqDownSelf,
    TemplateName::RqDownDown,
    TemplateName::RsDown,
    TemplateName::RsDownSelf,
    TemplateName::RsDownRqDown,
    TemplateName::RsUpDown,
    TemplateName::RsUpUp,
    TemplateName::RsUpSelf,
];

/// The uplock, taken for the requester.
const UP_FOR_CHILD: (Side, Origin) = (Side::Up, Origin::Child);

/// The uplock, taken for the object itself.
const UP_FOR_OWN: (Side, Origin) = (Side::Up, Origin::Own);

/// The downlock, taken for the requester.
const DOWN_FOR_CHILD: (Side, Origin) = (Side::Down, Origin::Child);

/// The downlock, taken for the parent.
const DOWN_FOR_PARENT: (Side, Origin) = (Side::Down, Origin::Parent);

/// The downlock, taken for the object itself.
const DOWN_FOR_OWN: (Side, Origin) = (Side::Down, Origin::Own);

/// The row of a template whose rules neither free nor lock.
fn immediate(taking: Taking, up: Hold, sending: Sending) -> Row
    ensures { result ≡ record { taking = taking; up = up; down = Free; may_set = true; frees = None; locks = None; sending = sending } }
{
    Row {
        taking,
        up,
        down: Hold::Free,
        may_set: true,
        frees: None,
        locks: None,
        sending,
    }
}

/// The row of a template whose rules ask and lock.
fn asking(taking: Taking, up: Hold, lock: (Side, Origin), sending: Sending) -> Row
    ensures { result ≡ record { taking = taking; up = up; down = Free; may_set = false; frees = None; locks = Some lock; sending = sending } }
{
    Row {
        taking,
        up,
        down: Hold::Free,
        may_set: false,
        frees: None,
        locks: Some(lock),
        sending,
    }
}

/// The row of a template whose rules take the parent's response and free the uplock.
fn answered_above(up: Hold, locks: Option<(Side, Origin)>, sending: Sending) -> Row
    ensures { result ≡ record { taking = ParentResponse; up = up; down = Free; may_set = true; frees = Some Up; locks = locks; sending = sending } }
{
    Row {
        taking: Taking::ParentResponse,
        up,
        down: Hold::Free,
        may_set: true,
        frees: Some(Side::Up),
        locks,
        sending,
    }
}

/// The row of a template whose rules take the children's responses and free the downlock.
fn answered_below(down: Hold, sending: Sending) -> Row
    ensures { result ≡ record { taking = FromKids; up = Any; down = down; may_set = true; frees = Some Down; locks = None; sending = sending } }
{
    Row {
        taking: Taking::FromKids,
        up: Hold::Any,
        down,
        may_set: true,
        frees: Some(Side::Down),
        locks: None,
        sending,
    }
}

/// The row of a template.
pub fn row_of(name: TemplateName) -> Row
    ensures { result ≡ row_of name }
{
    match name {
        TemplateName::ImmSelf => immediate(Taking::NothingTaken, Hold::Free, Sending::NothingSent),
        TemplateName::ImmDown => immediate(Taking::FromRequester, Hold::Free, Sending::ToRequester),
        TemplateName::ImmUp => immediate(Taking::ParentRequest, Hold::Any, Sending::ResponseUp),
        TemplateName::RqUp => asking(
            Taking::FromRequester,
            Hold::Free,
            UP_FOR_CHILD,
            Sending::RequestUp,
        ),
        TemplateName::RqUpSelf => asking(
            Taking::NothingTaken,
            Hold::Free,
            UP_FOR_OWN,
            Sending::RequestUp,
        ),
        TemplateName::RqUpDown => asking(
            Taking::FromRequester,
            Hold::Free,
            DOWN_FOR_CHILD,
            Sending::ToOthers,
        ),
        TemplateName::RqDownSelf => asking(
            Taking::NothingTaken,
            Hold::Free,
            DOWN_FOR_OWN,
            Sending::ToKids,
        ),
        TemplateName::RqDownDown => asking(
            Taking::ParentRequest,
            Hold::Any,
            DOWN_FOR_PARENT,
            Sending::ToKids,
        ),
        TemplateName::RsDown => answered_above(Hold::Child, None, Sending::ToRequester),
        TemplateName::RsDownSelf => answered_above(Hold::Own, None, Sending::NothingSent),
        TemplateName::RsDownRqDown => answered_above(
            Hold::Child,
            Some(DOWN_FOR_CHILD),
            Sending::ToOthers,
        ),
        TemplateName::RsUpDown => answered_below(Hold::Child, Sending::ToRequester),
        TemplateName::RsUpUp => answered_below(Hold::Parent, Sending::ResponseUp),
        TemplateName::RsUpSelf => answered_below(Hold::Own, Sending::NothingSent),
    }
}
