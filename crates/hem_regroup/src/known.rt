//! What is known of what a history is regrouped by.

ghost use Rattle.hem_syntax.specs.Lawful.{IsProtocol};
ghost use Rattle.hem_check.specs.Discipline.{IsDisciplined};
ghost use Rattle.hem_tree.specs.Tree.{IsTree};

use hem_base::Kind;
use hem_check::Accepted;
use hem_tree::Tree;

/// An accepted protocol is a protocol and disciplined, and a tree is a finite tree.
pub(crate) fn known(a: &Accepted, tree: &Tree)
    ensures protocol { IsProtocol a.now }
    ensures disciplined { IsDisciplined a.now }
    ensures shape { IsTree tree.now }
{
    let p = a.protocol();
    let _lawful = p.part(Kind::Root);
    let _count = tree.objects();
}
