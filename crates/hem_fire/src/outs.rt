//! What a firing takes and sends.

use hem_base::{KidSet, Message};

/// Where a firing sends its message.
#[derive(Clone, Copy, Debug, PartialEq, Eq)]
pub enum To {
    /// To nobody: the rule sends nothing.
    Nobody,
    /// To a leaf's processor, as an answer.
    Answer,
    /// Down to the child at that place, for which the rule works.
    Kid(u8),
    /// Up to the parent, on the channel of requests.
    UpRequest,
    /// Up to the parent, on the channel of responses.
    UpResponse,
    /// Down to each of these children.
    Kids(KidSet),
}

/// What a firing takes and sends. Where `to` is `Nobody`, the message has the id 0 and the value 0.
#[derive(Clone, Copy, Debug, PartialEq, Eq)]
pub struct Outs {
    /// Whether the head of the requester's requests is taken.
    pub taken_request: bool,
    /// Whether the head of the parent's messages is taken.
    pub taken_parent: bool,
    /// The children of whose responses the head is taken.
    pub taken_kids: KidSet,
    /// Where the message goes.
    pub to: To,
    /// The message, which is sent once to each that `to` names.
    pub message: Message,
}
