//! The lists of an object on a line.

/// The lists of an object: its edge's requests up, responses up and messages down, and a leaf's requests and answers.
#[derive(Clone, Copy, Debug, PartialEq, Eq)]
pub enum Lane {
    UpRequests,
    UpResponses,
    Down,
    Requests,
    Answers,
}
