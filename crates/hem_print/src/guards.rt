//! Guards and sets of rules.

ghost use Rattle.std.specs.Prelude.{◌≡◌, [], ◌∷◌, ◌++◌, OnOk};
ghost use Rattle.hem_base.specs.declared.words.Reserved.TheVariants.{When, Set};
ghost use Rattle.hem_base.specs.declared.words.Sign.TheVariants as sign;
ghost use Rattle.hem_syntax.specs.Protocol.{part};
ghost use Rattle.hem_print.specs.Canonical.{plain, signed, words_text, led, atom_words, assign_words};

use crate::names::{
    write_field_name, write_message, write_set, write_status, write_value, write_word,
};
use hem_base::{Kind, OutOfMemory, Reserved};
use hem_output::Output;
use hem_syntax::{Assign, Atom, Protocol};

/// Appends a condition.
fn write_atom(output: &mut Output, p: &Protocol, kind: Kind, atom: Atom) -> Result<(), OutOfMemory>
    ensures { OnOk result (output.new ≡ output.old ++ words_text (atom_words p.now (part p.now kind) atom)) }
{
    match atom {
        Atom::Field(field, set) => {
            write_field_name(output, p, kind, field)?;
            write_word(output, Reserved::In)?;
            write_set(output, p, set)
        }
        Atom::Me(set) => {
            write_word(output, Reserved::Me)?;
            write_word(output, Reserved::In)?;
            write_set(output, p, set)
        }
        Atom::KidsAll(set) => {
            write_word(output, Reserved::Kids)?;
            write_word(output, Reserved::All)?;
            write_set(output, p, set)
        }
        Atom::KidsAny(set) => {
            write_word(output, Reserved::Kids)?;
            write_word(output, Reserved::Any)?;
            write_set(output, p, set)
        }
        Atom::OthersAll(set) => {
            write_word(output, Reserved::Others)?;
            write_word(output, Reserved::All)?;
            write_set(output, p, set)
        }
        Atom::OthersAny(set) => {
            write_word(output, Reserved::Others)?;
            write_word(output, Reserved::Any)?;
            write_set(output, p, set)
        }
        Atom::Asked(id) => {
            write_word(output, Reserved::Asked)?;
            write_message(output, p, id)
        }
    }
}

/// Appends the sign `:=`.
fn write_becomes(output: &mut Output) -> Result<(), OutOfMemory>
    ensures { OnOk result (output.new ≡ output.old ++ words_text (signed sign.Assign ∷ [])) }
{
    output.text(" :=")
}

/// Appends a comma.
fn write_comma(output: &mut Output) -> Result<(), OutOfMemory>
    ensures { OnOk result (output.new ≡ output.old ++ words_text (signed sign.Comma ∷ [])) }
{
    output.text(",")
}

/// Appends a set of a rule.
fn write_assign(
    output: &mut Output,
    p: &Protocol,
    kind: Kind,
    assign: Assign,
) -> Result<(), OutOfMemory>
    ensures { OnOk result (output.new ≡ output.old ++ words_text (assign_words p.now (part p.now kind) assign)) }
{
    match assign {
        Assign::Field(field, status) => {
            write_field_name(output, p, kind, field)?;
            write_becomes(output)?;
            write_status(output, p, status)
        }
        Assign::Val(value) => {
            write_word(output, Reserved::Val)?;
            write_becomes(output)?;
            write_value(output, value)
        }
        Assign::Me(status) => {
            write_word(output, Reserved::Me)?;
            write_becomes(output)?;
            write_status(output, p, status)
        }
        Assign::Targets(status) => {
            write_word(output, Reserved::Targets)?;
            write_becomes(output)?;
            write_status(output, p, status)
        }
    }
}

/// Appends conditions after the first one, each with a comma before it.
fn write_more_atoms(
    output: &mut Output,
    p: &Protocol,
    kind: Kind,
    atoms: &[Atom],
) -> Result<(), OutOfMemory>
    ensures { OnOk result (output.new ≡ output.old ++ words_text (led (signed sign.Comma) (atom_words p.now (part p.now kind)) atoms.now)) }
{
    for atom in atoms {
        write_comma(output)?;
        write_atom(output, p, kind, *atom)?;
    }
    Ok(())
}

/// Appends the guard of a rule, if it has conditions.
#[tactic(auto, using(crate::proofs::Led::led_first))]
pub(crate) fn write_guard(
    output: &mut Output,
    p: &Protocol,
    kind: Kind,
    guard: &[Atom],
) -> Result<(), OutOfMemory>
    ensures { OnOk result (output.new ≡ output.old ++ words_text (led (plain When) (atom_words p.now (part p.now kind)) guard.now)) }
{
    match guard {
        [] => Ok(()),
        [first, others @ ..] => {
            write_word(output, Reserved::When)?;
            write_atom(output, p, kind, *first)?;
            write_more_atoms(output, p, kind, others)
        }
    }
}

/// Appends sets of a rule after the first one, each with a comma before it.
fn write_more_sets(
    output: &mut Output,
    p: &Protocol,
    kind: Kind,
    sets: &[Assign],
) -> Result<(), OutOfMemory>
    ensures { OnOk result (output.new ≡ output.old ++ words_text (led (signed sign.Comma) (assign_words p.now (part p.now kind)) sets.now)) }
{
    for assign in sets {
        write_comma(output)?;
        write_assign(output, p, kind, *assign)?;
    }
    Ok(())
}

/// Appends the sets of a rule, if it has any.
#[tactic(auto, using(crate::proofs::Led::led_first))]
pub(crate) fn write_sets(
    output: &mut Output,
    p: &Protocol,
    kind: Kind,
    sets: &[Assign],
) -> Result<(), OutOfMemory>
    ensures { OnOk result (output.new ≡ output.old ++ words_text (led (plain Set) (assign_words p.now (part p.now kind)) sets.now)) }
{
    match sets {
        [] => Ok(()),
        [first, others @ ..] => {
            write_word(output, Reserved::Set)?;
            write_assign(output, p, kind, *first)?;
            write_more_sets(output, p, kind, others)
        }
    }
}
