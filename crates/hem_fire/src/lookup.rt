//! Look-ups in a protocol: what it says of a message id.

ghost use Rattle.std.specs.Prelude.{◌≡◌, false};
ghost use Rattle.std.specs.Option.{option_map_or};
ghost use Rattle.hem_syntax.specs.Protocol.{class_of, is_request};

use hem_base::MsgId;
use hem_syntax::{Class, Protocol};

/// Whether a message id is declared with a class of requests.
pub(crate) fn is_request_id(p: &Protocol, id: MsgId) -> bool
    ensures { result ≡ option_map_or is_request (class_of p.now id) false }
{
    matches!(
        p.class(id),
        Some(Class::ExtReq | Class::UpReq | Class::DownReq)
    )
}
