//! Tests of single firings, of the calls below the program, of failing ends and of documents at the limits. Documents that
//! are only text with an answer stand in the table of `hem_tables`. What is expected is not the program's own answer: it
//! follows from the rules of the language.
#![tactic(auto)]

#[cfg(test)]
mod answers;
#[cfg(test)]
mod call;
#[cfg(test)]
mod documents;
#[cfg(test)]
mod firings;
#[cfg(test)]
mod greatest;
#[cfg(test)]
mod long_documents;
#[cfg(test)]
mod names;
#[cfg(test)]
mod reading;
#[cfg(test)]
mod shipped_texts;
#[cfg(test)]
mod streams;
#[cfg(test)]
mod tokens;
#[cfg(test)]
mod transactions;
#[cfg(test)]
mod trees;
#[cfg(test)]
mod writes;
