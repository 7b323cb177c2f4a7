//! Why a tree or a work can't be set up.

ghost use Rattle.std.specs.Prelude.{◌≡◌};
ghost use Rattle.hem_tree.specs.declared.setup.SetupError.TheVariants.{OutOfMemory as Memory};

use hem_base::OutOfMemory;
use hem_text::Place;

/// The rule of the tree or of the work that is broken.
#[derive(Clone, Copy, Debug, PartialEq, Eq)]
pub enum SetupCause {
    /// The tree has too many objects.
    Objects,
    /// An object has too many children.
    Children,
    /// The tree is too deep.
    Levels,
    /// There are no lines, or too many.
    Lines,
    /// The bound on what each object may start by itself passes its limit.
    SelfCount,
    /// Requests are given to an object that is no leaf of the tree.
    Object,
    /// Requests are given on a line that is not there.
    Line,
    /// A message that is no request of a processor stands among the requests.
    Request,
    /// There are too many requests.
    Requests,
    /// The requests, with all that the objects may start by themselves, are too many.
    Starts,
}

/// The first broken rule of a tree or a work, and the place of the token that breaks it.
#[derive(Clone, Copy, Debug, PartialEq, Eq)]
pub struct SetupFault {
    /// The place of the token that breaks the rule.
    pub place: Place,
    /// Which rule is broken.
    pub cause: SetupCause,
}

/// The first broken rule with its place, or want of memory.
#[derive(Clone, Copy, Debug, PartialEq, Eq)]
pub enum SetupError {
    Setup(SetupFault),
    OutOfMemory,
}

impl From<OutOfMemory> for SetupError {
    ghost from_gives = { λ _ e. e ≡ Memory };

    fn from(_e: OutOfMemory) -> SetupError {
        SetupError::OutOfMemory
    }
}
