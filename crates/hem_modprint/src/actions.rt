//! Actions.

ghost use Rattle.std.specs.Prelude.{◌≡◌, ◌++◌, flat_map, codes, OnOk, IsTrue};
ghost use Rattle.std.specs.List.{list_all};
ghost use Rattle.hem_modprint.specs.ModulesText.{value_text, act_text, action_text, actions_text};
ghost use Rattle.hem_modprint.specs.ReadsBack.{fits_value, fits_act, fits_action};

use crate::names::{write_queue, write_register};
use crate::tests::write_condition;
use hem_base::OutOfMemory;
use hem_module::{Act, Action, ModValue, Modules};
use hem_output::Output;

/// Appends a value.
fn write_value(output: &mut Output, m: &Modules, value: ModValue) -> Result<(), OutOfMemory>
    ensures text { OnOk result (output.new ≡ output.old ++ value_text m.now value) }
    ensures fits { OnOk result (IsTrue (fits_value value)) }
{
    match value {
        ModValue::Number(number) => output.number(number),
        ModValue::Reg(register) => write_register(output, m, register),
        ModValue::Front(queue) => {
            output.text("value ")?;
            write_queue(output, m, queue)
        }
    }
}

/// Appends what an action does.
fn write_act(output: &mut Output, m: &Modules, act: Act) -> Result<(), OutOfMemory>
    ensures text { OnOk result (output.new ≡ output.old ++ act_text m.now act) }
    ensures fits { OnOk result (IsTrue (fits_act act)) }
{
    match act {
        Act::Deq(queue) => {
            output.text(" deq ")?;
            write_queue(output, m, queue)
        }
        Act::Set(register, value) => {
            output.text(" ")?;
            write_register(output, m, register)?;
            output.text(" := ")?;
            write_value(output, m, value)
        }
        Act::Enq(queue, id, value) => {
            output.text(" enq ")?;
            write_queue(output, m, queue)?;
            output.text(" ")?;
            output.number(u64::from(id.0))?;
            output.text(" ")?;
            write_value(output, m, value)
        }
    }
}

/// Appends an action.
fn write_action(output: &mut Output, m: &Modules, action: &Action) -> Result<(), OutOfMemory>
    ensures text { OnOk result (output.new ≡ output.old ++ action_text m.now action.now) }
    ensures fits { OnOk result (IsTrue (fits_action action.now)) }
{
    write_condition(output, m, action.cond.as_slice())?;
    write_act(output, m, action.act)
}

/// Appends the actions after the first one.
fn write_more_actions(
    output: &mut Output,
    m: &Modules,
    actions: &[Action],
) -> Result<(), OutOfMemory>
    ensures text { OnOk result (output.new ≡ output.old ++ flat_map (λ a. codes "," ++ action_text m.now a) actions.now) }
    ensures fits { OnOk result (IsTrue (list_all fits_action actions.now)) }
{
    for action in actions {
        output.text(",")?;
        write_action(output, m, action)?;
    }
    Ok(())
}

/// Appends the actions of a rule, if it has any.
pub(crate) fn write_actions(
    output: &mut Output,
    m: &Modules,
    actions: &[Action],
) -> Result<(), OutOfMemory>
    ensures text { OnOk result (output.new ≡ output.old ++ actions_text m.now actions.now) }
    ensures fits { OnOk result (IsTrue (list_all fits_action actions.now)) }
{
    match actions {
        [] => Ok(()),
        [first, others @ ..] => {
            output.text(" do")?;
            write_action(output, m, first)?;
            write_more_actions(output, m, others)
        }
    }
}
