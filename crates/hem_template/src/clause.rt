//! The clauses of the discipline.

/// The eight clauses of the discipline, in the order in which they are tried.
#[derive(Clone, Copy, Debug, PartialEq, Eq)]
pub enum Clause {
    /// The root has no parent, and a leaf has no children.
    Level,
    /// What is taken and sent has the class of its place.
    Class,
    /// Take, locks and send are those of a template.
    Shape,
    /// Both needs are the template's.
    Locks,
    /// A template without sets sets nothing.
    Silent,
    /// Some guards read neither the requester nor the others.
    Scope,
    /// Each name stands where it has a meaning.
    Names,
    /// No other rule takes the guard of a waiting request away, or changes the value that it sent.
    Stable,
}
