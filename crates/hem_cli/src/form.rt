//! The form of an answer.

ghost use Rattle.std.specs.Prelude.{◌≡◌, string_bytes, IfOk};
ghost use Rattle.hem_cli.specs.Form.{in_form};
ghost use Rattle.hem_cli.specs.declared.status.Status.{Status};

use crate::Status;
use crate::reply::Reply;
use hem_base::OutOfMemory;
use hem_json::json;
use std::alloc::Global;

/// The reply in the form that is asked for.
pub(crate) fn in_form(alloc: Global, json_form: bool, reply: Reply) -> Result<Reply, OutOfMemory>
    ensures status { IfOk result (λ r. r.status ≡ reply.status) }
    ensures text { IfOk result (λ r. string_bytes r.text ≡ in_form json_form reply.status (string_bytes reply.text)) }
{
    if !json_form {
        return Ok(reply);
    }
    let Reply { status, text } = reply;
    Ok(Reply {
        status,
        text: json(alloc, &text, status.code())?,
    })
}
