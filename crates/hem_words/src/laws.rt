//! A law of the words, the contract of a function that does nothing.

ghost use Rattle.std.specs.Prelude.{◌≡◌, ℕ, List};
ghost use Rattle.hem_words.specs.Job.{AsksFor};
ghost use Rattle.hem_words.specs.declared.job.Asked.{Asked};

/// Words ask for one thing at most: a job, and the form of its answer.
pub fn words_ask_for_one_job()
    ensures once { (words : List (List ℕ)) (a b : Asked) → AsksFor words a → AsksFor words b → a ≡ b }
{}
