//! The numbers that a rule writes and sends.

ghost use Rattle.std.specs.Prelude.{◌≡◌, ◌++◌, ◌∷◌, [], map, IfOk, OnOk};
ghost use Rattle.hem_module.specs.Module.{head_value};
ghost use Rattle.hem_syntax.specs.declared.rule.Value.TheVariants as named;
ghost use Rattle.hem_emit.specs.Clauses.{responses_of};
ghost use Rattle.hem_emit.specs.Actions.{not_awaited, is_first_awaited, amounts_of};
ghost use Rattle.hem_translate.specs.ByPlace.{test_at};
ghost use Rattle.hem_translate.specs.Amounts.{done, counted_at, alone, acted};

use crate::clauses::{is, requests};
use crate::site::{Kid, Places, Site, before};
use crate::tables::{Part, Queue, Reg};
use hem_base::{List, MsgId, OutOfMemory};
use hem_module::{Act, Action, ModAtom, ModValue};
use hem_syntax::{Take, Value};
use std::alloc::Global;

/// A number that a value may mean, and the tests under which it does.
#[derive(Debug, Drop)]
pub(crate) struct Amount {
    pub(crate) tests: List<ModAtom>,
    pub(crate) value: ModValue,
}

/// What is done with a number. Registers and queues go by their places.
#[derive(Clone, Copy, Debug, PartialEq, Eq)]
pub(crate) enum Deed {
    /// A register is written with it.
    Put(usize),
    /// It is sent to a queue under an id.
    Send(usize, MsgId),
}

/// What is done with a number, as it is written.
fn act(deed: Deed, value: ModValue) -> Act
    ensures { result ≡ done deed value }
{
    match deed {
        Deed::Put(reg) => Act::Set(reg, value),
        Deed::Send(queue, id) => Act::Enq(queue, id, value),
    }
}

/// Appends tests.
pub(crate) fn push_tests(atoms: &mut List<ModAtom>, tests: &[ModAtom]) -> Result<(), OutOfMemory>
    ensures { OnOk result (atoms.new ≡ atoms.old ++ tests.now) }
{
    for test in tests {
        atoms.push(*test)?;
    }
    Ok(())
}

/// The same tests.
pub(crate) fn copied(alloc: Global, tests: &[ModAtom]) -> Result<List<ModAtom>, OutOfMemory>
    ensures { IfOk result (λ t. t ≡ tests.now) }
{
    let mut atoms = List::new(alloc);
    push_tests(&mut atoms, tests)?;
    Ok(atoms)
}

/// Appends that children aren't awaited.
fn push_not_awaited(l: &Places, atoms: &mut List<ModAtom>, kids: &[Kid]) -> Result<(), OutOfMemory>
    ensures { OnOk result (atoms.new ≡ atoms.old ++ map (test_at l.now) (map not_awaited kids.now)) }
{
    for kid in kids {
        atoms.push(is(l, Reg::Awaits(kid.object()), 0))?;
    }
    Ok(())
}

/// Appends the value of a child's response, where the child is the least that is awaited.
fn push_response(
    alloc: Global,
    l: &Places,
    amounts: &mut List<Amount>,
    site: &Site,
    kid: &Kid,
) -> Result<(), OutOfMemory>
    ensures { OnOk result (amounts.new ≡ amounts.old ++ counted_at l.now (is_first_awaited site.now kid.now, head_value (responses_of kid.now)) ∷ []) }
{
    let mut tests = List::new(alloc);
    tests.push(is(l, Reg::Awaits(kid.object()), 1))?;
    let earlier = before(alloc, site.kids(), kid.place())?;
    push_not_awaited(l, &mut tests, earlier.as_slice())?;
    amounts.push(Amount {
        tests,
        value: ModValue::Front(l.queue(Queue::UpResponses(kid.object()))),
    })
}

/// Appends the values of the children's responses.
fn push_responses(
    alloc: Global,
    l: &Places,
    amounts: &mut List<Amount>,
    site: &Site,
    kids: &[Kid],
) -> Result<(), OutOfMemory>
    ensures { OnOk result (amounts.new ≡ amounts.old ++ map (counted_at l.now) (map (λ k. (is_first_awaited site.now k, head_value (responses_of k))) kids.now)) }
{
    for kid in kids {
        push_response(alloc, l, amounts, site, kid)?;
    }
    Ok(())
}

/// The value of the message that a rule takes.
fn message(l: &Places, site: &Site, me: Option<u8>, take: Take) -> ModValue
    ensures { alone result ≡ map (counted_at l.now) (amounts_of site.now me take named.Msg) }
{
    match take {
        Take::Me(_) => ModValue::Front(l.queue(requests(site, me))),
        Take::Parent(_) => ModValue::Front(l.queue(Queue::Down(site.object()))),
        Take::Kids(_) | Take::Nothing => ModValue::Number(0),
    }
}

/// The value of the request that a lock keeps.
fn kept(l: &Places, site: &Site, me: Option<u8>, take: Take) -> ModValue
    ensures { alone result ≡ map (counted_at l.now) (amounts_of site.now me take named.Kept) }
{
    match take {
        Take::Parent(_) => ModValue::Reg(l.reg(Reg::Up(Part::Kept, site.object()))),
        Take::Kids(_) => ModValue::Reg(l.reg(Reg::Down(Part::Kept, site.object()))),
        Take::Me(_) | Take::Nothing => ModValue::Number(0),
    }
}

/// An amount without tests.
fn single(alloc: Global, value: ModValue) -> Result<List<Amount>, OutOfMemory>
    ensures { IfOk result (λ a. a ≡ alone value) }
{
    let mut amounts = List::new(alloc);
    amounts.push(Amount {
        tests: List::new(alloc),
        value,
    })?;
    Ok(amounts)
}

/// The amounts that a value may mean.
pub(crate) fn amounts(
    alloc: Global,
    l: &Places,
    site: &Site,
    me: Option<u8>,
    take: Take,
    value: Value,
) -> Result<List<Amount>, OutOfMemory>
    ensures { IfOk result (λ a. a ≡ map (counted_at l.now) (amounts_of site.now me take value)) }
{
    match value {
        Value::Val => single(alloc, ModValue::Reg(l.reg(Reg::Val(site.object())))),
        Value::Msg => single(alloc, message(l, site, me, take)),
        Value::Kept => single(alloc, kept(l, site, me, take)),
        Value::Zero => single(alloc, ModValue::Number(0)),
        Value::Rs => {
            let mut amounts = List::new(alloc);
            push_responses(alloc, l, &mut amounts, site, site.kids())?;
            Ok(amounts)
        }
    }
}

/// Appends a deed with an amount, under further tests.
fn push_amount(
    alloc: Global,
    actions: &mut List<Action>,
    tests: &[ModAtom],
    deed: Deed,
    amount: &Amount,
) -> Result<(), OutOfMemory>
    ensures { OnOk result (actions.new ≡ actions.old ++ acted tests.now deed amount.now ∷ []) }
{
    let mut cond = copied(alloc, tests)?;
    push_tests(&mut cond, amount.tests.as_slice())?;
    actions.push(Action {
        cond,
        act: act(deed, amount.value),
    })
}

/// Appends a deed with each of these amounts, under further tests.
pub(crate) fn push_amounts(
    alloc: Global,
    actions: &mut List<Action>,
    tests: &[ModAtom],
    deed: Deed,
    amounts: &[Amount],
) -> Result<(), OutOfMemory>
    ensures { OnOk result (actions.new ≡ actions.old ++ map (acted tests.now deed) amounts.now) }
{
    for amount in amounts {
        push_amount(alloc, actions, tests, deed, amount)?;
    }
    Ok(())
}
