//! The lawful tree and work of a document.

ghost use Rattle.std.specs.Prelude.{◌≡◌, IfOk, IfErr, OnOk};
ghost use Rattle.hem_document.specs.SetUp.{document_of, tree_in, work_in, IsSetUp, IsNotSetUp};

use hem_syntax::Protocol;
use hem_tree::{RawTree, SetupError, Tree};
use hem_work::{RawWork, Work};
use std::alloc::Global;

/// A lawful tree, and a lawful work over it.
#[derive(Drop)]
pub struct Lawful {
    pub tree: Tree,
    pub work: Work,
}

/// The tree and the work over a protocol, where both are lawful. An answer `Setup` is the first rule that they break, the
/// tree's before the work's.
pub fn set_up(
    alloc: Global,
    protocol: &Protocol,
    tree: &RawTree,
    work: &RawWork,
) -> Result<Lawful, SetupError>
    ensures tree { IfOk result (λ lawful. lawful.tree ≡ tree_in (document_of protocol.now tree.now work.now)) }
    ensures work { IfOk result (λ lawful. lawful.work ≡ work_in (document_of protocol.now tree.now work.now)) }
    ensures lawful { OnOk result (IsSetUp (document_of protocol.now tree.now work.now)) }
    ensures fault { IfErr result (IsNotSetUp (document_of protocol.now tree.now work.now)) }
{
    let tree = Tree::build(alloc, tree)?;
    let work = Work::build(alloc, work, protocol, &tree)?;
    Ok(Lawful { tree, work })
}
