//! Laws of the answers, the contracts of functions that do nothing.

ghost use Rattle.std.specs.Prelude.{◌≡◌, ℕ, List};
ghost use Rattle.hem_cli.specs.Answer.{Answer, AskForRun};
ghost use Rattle.hem_cli.specs.declared.status.Status.{Status};

/// Words and bytes have an answer of one status, and where the words don't ask for `run` with one text.
pub fn words_and_bytes_have_one_answer()
    ensures status { (words : List (List ℕ)) (bytes : List ℕ) (a b : Status) (x y : List ℕ) → Answer words bytes a x → Answer words bytes b y → a ≡ b }
    ensures text { (words : List (List ℕ)) (bytes : List ℕ) (a b : Status) (x y : List ℕ) → ¬ AskForRun words → Answer words bytes a x → Answer words bytes b y → x ≡ y }
{}
