//! An object on a line.

ghost use Rattle.std.specs.Prelude.{◌≡◌};
ghost use Rattle.hem_system.specs.State.{list_of};
ghost use Rattle.hem_system.specs.Cells.{seen};

use crate::lane::Lane;
use crate::queue::Queue;
use hem_base::Message;
use hem_object::Local;

/// An object on a line: its local state, the three lists of the edge to its parent, and a leaf's requests and answers.
#[derive(Drop)]
pub(crate) struct Cell {
    pub(crate) local: Local,
    pub(crate) up_requests: Queue,
    pub(crate) up_responses: Queue,
    pub(crate) down: Queue,
    pub(crate) requests: Queue,
    pub(crate) answers: Queue,
}

impl Cell {
    /// A list of the object.
    pub(crate) fn list(&self, lane: Lane) -> &[Message]
        ensures { result.now ≡ list_of (seen self.now) lane }
    {
        match lane {
            Lane::UpRequests => self.up_requests.as_slice(),
            Lane::UpResponses => self.up_responses.as_slice(),
            Lane::Down => self.down.as_slice(),
            Lane::Requests => self.requests.as_slice(),
            Lane::Answers => self.answers.as_slice(),
        }
    }
}
