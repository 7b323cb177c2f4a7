//! Tests and clauses.

ghost use Rattle.std.specs.Prelude.{◌≡◌, ◌++◌, flat_map, codes, OnOk, IsTrue};
ghost use Rattle.std.specs.List.{list_all};
ghost use Rattle.hem_modprint.specs.ModulesText.{led, test_text, tests_text, clauses_text};
ghost use Rattle.hem_modprint.specs.ReadsBack.{fits_test, fits_clause};

use crate::names::{write_queue, write_register};
use hem_base::OutOfMemory;
use hem_module::{ModAtom, ModClause, Modules};
use hem_output::Output;

/// Appends a test.
fn write_test(output: &mut Output, m: &Modules, atom: ModAtom) -> Result<(), OutOfMemory>
    ensures text { OnOk result (output.new ≡ output.old ++ test_text m.now atom) }
    ensures fits { OnOk result (IsTrue (fits_test atom)) }
{
    match atom {
        ModAtom::Is(register, number) => {
            write_register(output, m, register)?;
            output.text(" = ")?;
            output.number(number)
        }
        ModAtom::Not(register, number) => {
            write_register(output, m, register)?;
            output.text(" != ")?;
            output.number(number)
        }
        ModAtom::Head(queue, id) => {
            output.text("head ")?;
            write_queue(output, m, queue)?;
            output.text(" = ")?;
            output.number(u64::from(id.0))
        }
    }
}

/// Appends the further tests of a clause.
fn write_alternatives(
    output: &mut Output,
    m: &Modules,
    atoms: &[ModAtom],
) -> Result<(), OutOfMemory>
    ensures text { OnOk result (output.new ≡ output.old ++ flat_map (λ a. codes " | " ++ test_text m.now a) atoms.now) }
    ensures fits { OnOk result (IsTrue (list_all fits_test atoms.now)) }
{
    for atom in atoms {
        output.text(" | ")?;
        write_test(output, m, *atom)?;
    }
    Ok(())
}

/// Appends the tests of a clause.
fn write_tests(output: &mut Output, m: &Modules, atoms: &[ModAtom]) -> Result<(), OutOfMemory>
    ensures text { OnOk result (output.new ≡ output.old ++ tests_text m.now atoms.now) }
    ensures fits { OnOk result (IsTrue (list_all fits_test atoms.now)) }
{
    match atoms {
        [] => output.text(" never"),
        [first, others @ ..] => {
            output.text(" ")?;
            write_test(output, m, *first)?;
            write_alternatives(output, m, others)
        }
    }
}

/// Appends the clauses after the first one.
fn write_more_clauses(
    output: &mut Output,
    m: &Modules,
    clauses: &[ModClause],
) -> Result<(), OutOfMemory>
    ensures text { OnOk result (output.new ≡ output.old ++ flat_map (λ c. codes "," ++ tests_text m.now c.atoms) clauses.now) }
    ensures fits { OnOk result (IsTrue (list_all fits_clause clauses.now)) }
{
    for clause in clauses {
        output.text(",")?;
        write_tests(output, m, clause.atoms.as_slice())?;
    }
    Ok(())
}

/// Appends the clauses of a rule, if it has any.
pub(crate) fn write_clauses(
    output: &mut Output,
    m: &Modules,
    clauses: &[ModClause],
) -> Result<(), OutOfMemory>
    ensures text { OnOk result (output.new ≡ output.old ++ clauses_text m.now clauses.now) }
    ensures fits { OnOk result (IsTrue (list_all fits_clause clauses.now)) }
{
    match clauses {
        [] => Ok(()),
        [first, others @ ..] => {
            output.text(" when")?;
            write_tests(output, m, first.atoms.as_slice())?;
            write_more_clauses(output, m, others)
        }
    }
}

/// Appends the further tests of a condition.
fn write_more_conditions(
    output: &mut Output,
    m: &Modules,
    atoms: &[ModAtom],
) -> Result<(), OutOfMemory>
    ensures text { OnOk result (output.new ≡ output.old ++ flat_map (λ a. codes " and " ++ test_text m.now a) atoms.now) }
    ensures fits { OnOk result (IsTrue (list_all fits_test atoms.now)) }
{
    for atom in atoms {
        output.text(" and ")?;
        write_test(output, m, *atom)?;
    }
    Ok(())
}

/// Appends the condition of an action, if it has one.
pub(crate) fn write_condition(
    output: &mut Output,
    m: &Modules,
    atoms: &[ModAtom],
) -> Result<(), OutOfMemory>
    ensures text { OnOk result (output.new ≡ output.old ++ led (codes " if ") (codes " and ") (test_text m.now) atoms.now) }
    ensures fits { OnOk result (IsTrue (list_all fits_test atoms.now)) }
{
    match atoms {
        [] => Ok(()),
        [first, others @ ..] => {
            output.text(" if ")?;
            write_test(output, m, *first)?;
            write_more_conditions(output, m, others)
        }
    }
}
