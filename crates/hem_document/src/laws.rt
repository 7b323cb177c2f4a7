//! Laws of documents, each the contract of a function that does nothing.

ghost use Rattle.std.specs.Prelude.{◌≡◌, ℕ, List};
ghost use Rattle.hem_tree.specs.declared.setup.SetupFault.{SetupFault};
ghost use Rattle.hem_document.specs.declared.documents.WorkDocument.{WorkDocument};
ghost use Rattle.hem_document.specs.Documents.{IsExact, IsProtocolDocument, IsTreeDocument, IsWorkDocument, IsDocument, IsProtocolDocumentFault, IsTreeDocumentFault, IsWorkDocumentFault, IsDocumentFault};
ghost use Rattle.hem_document.specs.Playing.{IsPlayDocument, IsPlayDocumentFault};
ghost use Rattle.hem_document.specs.SetUp.{IsSetUp, IsSetupFault};

/// Bytes are at most one document of each kind, or have one first fault, and never both.
pub fn documents_are_read_once()
    ensures protocol { (bytes : List ℕ) → IsExact (IsProtocolDocument bytes) (IsProtocolDocumentFault bytes) }
    ensures tree { (bytes : List ℕ) → IsExact (IsTreeDocument bytes) (IsTreeDocumentFault bytes) }
    ensures work { (bytes : List ℕ) → IsExact (IsWorkDocument bytes) (IsWorkDocumentFault bytes) }
    ensures history { (bytes : List ℕ) → IsExact (IsDocument bytes) (IsDocumentFault bytes) }
    ensures play { (bytes : List ℕ) → IsExact (IsPlayDocument bytes) (IsPlayDocumentFault bytes) }
{}

/// A document has one first broken rule at most, and none where its tree and its work are lawful.
pub fn setups_have_one_fault()
    ensures once { (d : WorkDocument) (f g : SetupFault) → IsSetupFault d f → IsSetupFault d g → f ≡ g }
    ensures excludes { (d : WorkDocument) (f : SetupFault) → IsSetUp d → IsSetupFault d f → ⊥ }
{}
