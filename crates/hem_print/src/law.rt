//! What printing and reading are to each other.

ghost use Rattle.hem_syntax.specs.Protocol.{Protocol as Described};
ghost use Rattle.hem_syntax.specs.Lawful.{IsProtocol};
ghost use Rattle.hem_print.specs.ReadsBack.{ReadsBack};

use hem_base::Kind;
use hem_syntax::Protocol;

/// The canonical text of this protocol, and of every other one, reads as that protocol. It does nothing.
pub fn reads_back(p: &Protocol)
    ensures this { ReadsBack p.now }
    ensures every { (q : Described) → IsProtocol q → ReadsBack q }
{
    let _root = p.part(Kind::Root);
}
