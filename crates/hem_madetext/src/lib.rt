//! What printing and reading are to each other for whole documents. Nothing runs here: the function does nothing, and its
//! contract is a law.
#![tactic(auto)]

ghost use Rattle.std.specs.Prelude.{◌≡◌, ℕ, List, None};
ghost use Rattle.hem_syntax.specs.Lawful.{IsProtocol};
ghost use Rattle.hem_tree.specs.Tree.{Tree, IsLawful};
ghost use Rattle.hem_work.specs.Work.{Work};
ghost use Rattle.hem_work.specs.Lawful.{IsLawfulWork};
ghost use Rattle.hem_work.specs.Made.{made_fault};
ghost use Rattle.hem_document.specs.declared.documents.WorkDocument.{WorkDocument};
ghost use Rattle.hem_document.specs.Documents.{IsWorkDocument};
ghost use Rattle.hem_document.specs.SetUp.{IsSetUp, tree_in, work_in};
ghost use Rattle.hem_cli.specs.Making.{made_text};
ghost use Rattle.hem_madetext.specs.ReadsBack.{HasAllNumbers, ReadsAs, made_in};

/// A document with another lawful tree and work, as it is printed, reads as a document of the same protocol with that tree
/// and that work; so does a document with generated requests.
pub fn made_documents_read_back()
    ensures every { (bytes : List ℕ) (d : WorkDocument) (tree : Tree) (work : Work) → IsWorkDocument bytes d → IsProtocol d.protocol → IsLawful tree → IsLawfulWork d.protocol tree work → HasAllNumbers work → ReadsAs (made_text bytes d.protocol tree work) d.protocol tree work }
    ensures generated { (bytes : List ℕ) (d : WorkDocument) (count seed : ℕ) → IsWorkDocument bytes d → IsProtocol d.protocol → IsSetUp d → made_fault d.protocol (tree_in d) (work_in d) count ≡ None → ReadsAs (made_text bytes d.protocol (tree_in d) (made_in d count seed)) d.protocol (tree_in d) (made_in d count seed) }
{}
