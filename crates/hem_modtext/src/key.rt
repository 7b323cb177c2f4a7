//! By what the rules of modules are told apart.

use hem_base::Name;

/// The object, the name and the child of a rule, by which it is told apart from all others.
#[derive(Debug, Drop, PartialEq, Eq, Hash)]
pub(crate) struct RuleKey {
    pub(crate) object: u32,
    pub(crate) name: Name,
    pub(crate) from: Option<u32>,
}
