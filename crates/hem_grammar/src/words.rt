//! How classes, needs, sides and origins are spelled.

ghost use Rattle.std.specs.Prelude.{◌≡◌};
ghost use Rattle.hem_grammar.specs.Draft.{class_word, hold_word, side_word, origin_word};

use hem_base::Reserved;
use hem_syntax::{Class, Hold, Origin, Side};

/// The word of a class.
pub fn class_word(class: Class) -> Reserved
    ensures { result ≡ class_word class }
{
    match class {
        Class::ExtReq => Reserved::ExtReq,
        Class::ExtRsp => Reserved::ExtRsp,
        Class::UpReq => Reserved::UpReq,
        Class::UpRsp => Reserved::UpRsp,
        Class::DownReq => Reserved::DownReq,
        Class::DownRsp => Reserved::DownRsp,
    }
}

/// The word of what a rule asks of a lock.
pub fn hold_word(hold: Hold) -> Reserved
    ensures { result ≡ hold_word hold }
{
    match hold {
        Hold::Any => Reserved::Any,
        Hold::Free => Reserved::Free,
        Hold::Child => Reserved::Child,
        Hold::Parent => Reserved::Parent,
        Hold::Own => Reserved::Own,
    }
}

/// The word of a lock.
pub fn side_word(side: Side) -> Reserved
    ensures { result ≡ side_word side }
{
    match side {
        Side::Up => Reserved::Up,
        Side::Down => Reserved::Down,
    }
}

/// The word of the one for whom a lock is held.
pub fn origin_word(origin: Origin) -> Reserved
    ensures { result ≡ origin_word origin }
{
    match origin {
        Origin::Child => Reserved::Child,
        Origin::Parent => Reserved::Parent,
        Origin::Own => Reserved::Own,
    }
}
