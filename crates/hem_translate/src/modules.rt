//! A protocol on a tree as modules.

ghost use Rattle.std.specs.Prelude.{◌≡◌, map, IfOk};
ghost use Rattle.hem_module.specs.Lawful.{IsModules};
ghost use Rattle.hem_emit.specs.Layout.{registers, queues};
ghost use Rattle.hem_emit.specs.Emit.{emitted_rules};
ghost use Rattle.hem_emit.specs.Matches.{Matches};
ghost use Rattle.hem_emit.specs.Written.{written_as, modules_of};
ghost use Rattle.hem_translate.specs.Places.{reg_of, queue_of};

use crate::layout::{queues, registers};
use crate::names::{queue_names, register_table};
use crate::objects::rules_of;
use crate::rules::copied;
use crate::site::Places;
use crate::tables::{Queue, Reg};
use hem_base::{Kind, List, OutOfMemory};
use hem_check::{Accepted, disciplined_protocols_are_templated_and_stable};
use hem_emit::{
    modules_match_the_protocol, modules_may_be_written, registers_and_queues_have_one_place_each,
};
use hem_module::{ModRule, Modules};
use hem_syntax::Protocol;
use hem_tree::Tree;
use std::alloc::Global;

/// All rules, as they are written over these registers and queues.
fn rules_over(
    alloc: Global,
    p: &Protocol,
    tree: &Tree,
    regs: &[Reg],
    lists: &[Queue],
) -> Result<List<ModRule>, OutOfMemory>
    requires regs { map reg_of regs.now ≡ registers p.now tree.now }
    requires lists { map queue_of lists.now ≡ queues tree.now }
    ensures { IfOk result (λ rules. rules ≡ map (written_as p.now tree.now) (emitted_rules p.now tree.now)) }
{
    registers_and_queues_have_one_place_each();
    let places = Places::of(alloc, regs, lists)?;
    rules_of(alloc, &places, p, tree)
}

/// The modules over these registers and queues.
fn modules_over(
    alloc: Global,
    p: &Protocol,
    tree: &Tree,
    regs: &[Reg],
    lists: &[Queue],
) -> Result<Modules, OutOfMemory>
    requires regs { map reg_of regs.now ≡ registers p.now tree.now }
    requires lists { map queue_of lists.now ≡ queues tree.now }
    requires lawful { IsModules (modules_of p.now tree.now) }
    ensures { IfOk result (λ m. m ≡ modules_of p.now tree.now) }
{
    let rules = rules_over(alloc, p, tree, regs, lists)?;
    let regs = register_table(alloc, p, tree, regs)?;
    let queues = queue_names(alloc, tree, lists)?;
    Ok(Modules::make(copied(p.name()), regs, queues, rules))
}

/// The modules of a protocol on a tree, where they may be written.
fn modules_of(alloc: Global, p: &Protocol, tree: &Tree) -> Result<Modules, OutOfMemory>
    requires { IsModules (modules_of p.now tree.now) }
    ensures { IfOk result (λ m. m ≡ modules_of p.now tree.now) }
{
    let regs = registers(alloc, p, tree)?;
    let lists = queues(alloc, tree)?;
    modules_over(alloc, p, tree, regs.as_slice(), lists.as_slice())
}

/// The modules of an accepted protocol may be written, and match it.
fn known(a: &Accepted, tree: &Tree)
    ensures lawful { IsModules (modules_of a.now tree.now) }
    ensures matches { Matches a.now tree.now (modules_of a.now tree.now) }
{
    let p = a.protocol();
    let _lawful = p.part(Kind::Root);
    let _count = tree.objects();
    disciplined_protocols_are_templated_and_stable();
    modules_may_be_written();
    modules_match_the_protocol();
}

/// The modules of an accepted protocol on a tree. They match it: each module rule is named after one firing, and each
/// firing has one module rule, which steps where the firing is possible, and as it does.
pub fn emit(alloc: Global, a: &Accepted, tree: &Tree) -> Result<Modules, OutOfMemory>
    ensures modules { IfOk result (λ m. m ≡ modules_of a.now tree.now) }
    ensures matches { IfOk result (Matches a.now tree.now) }
{
    known(a, tree);
    modules_of(alloc, a.protocol(), tree)
}
