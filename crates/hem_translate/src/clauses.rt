//! The clauses of a rule.

ghost use Rattle.std.specs.Prelude.{◌≡◌, ◌++◌, ◌∷◌, [], ℕ, map, filter, Some, IfOk, OnOk, cond};
ghost use Rattle.std.specs.List.{flat_map};
ghost use Rattle.hem_base.specs.Sets.{has_bit};
ghost use Rattle.hem_syntax.specs.declared.rule.Side.TheVariants.{Up, Down};
ghost use Rattle.hem_tree.specs.Tree.{below};
ghost use Rattle.hem_module.specs.Module.{equals, differs, has_head};
ghost use Rattle.hem_emit.specs.Names.{entry, awaits, asked, lock};
ghost use Rattle.hem_emit.specs.Place.{kids_at, others_at, asker_of, origin_at, kid_origin, fixed, holder};
ghost use Rattle.hem_translate.specs.Places.{reg_of, queue_of};
ghost use Rattle.hem_translate.specs.Askers.{asker_is};
ghost use Rattle.hem_emit.specs.Clauses.{is_one_of, entry_in, held_for, not_held_for, requests_of, parent_queue, responses_of, take_clauses, child_need, need_clauses, me_clauses, others_all, others_any, kids_any, asked_clauses, atom_clauses, send_clauses, clauses_of};
ghost use Rattle.hem_translate.specs.ByPlace.{reg_at, queue_at, test_at, clause_at};

use crate::site::{Kid, Places, Site, named, others};
use crate::tables::{Part, Queue, Reg};
use hem_base::{Kind, List, MsgId, OutOfMemory, Status8, StatusSet};
use hem_module::{ModAtom, ModClause};
use hem_syntax::{Atom, Hold, Rule, SendTo, Side, Take};
use std::alloc::Global;

/// The register of a lock's origin.
pub(crate) fn origin(site: &Site, side: Side) -> Reg
    ensures { reg_of result ≡ origin_at site.now side }
{
    match side {
        Side::Up => Reg::Up(Part::Origin, site.object()),
        Side::Down => Reg::Down(Part::Origin, site.object()),
    }
}

/// That a register holds a number.
pub(crate) fn is(l: &Places, reg: Reg, number: u64) -> ModAtom
    ensures { result ≡ test_at l.now (equals (reg_of reg) number) }
{
    ModAtom::Is(l.reg(reg), number)
}

/// That a lock is held for a child.
pub(crate) fn held(l: &Places, site: &Site, side: Side, kid: &Kid) -> ModAtom
    ensures { result ≡ test_at l.now (held_for site.now side kid.now) }
{
    ModAtom::Is(l.reg(origin(site, side)), 3 + u64::from(kid.object()))
}

/// That a lock isn't held for a child.
pub(crate) fn not_held(l: &Places, site: &Site, side: Side, kid: &Kid) -> ModAtom
    ensures { result ≡ test_at l.now (not_held_for site.now side kid.now) }
{
    ModAtom::Not(l.reg(origin(site, side)), 3 + u64::from(kid.object()))
}

/// That a queue has a head with an id.
fn head(l: &Places, queue: Queue, id: MsgId) -> ModAtom
    ensures { result ≡ test_at l.now (has_head (queue_of queue) id.0) }
{
    ModAtom::Head(l.queue(queue), id)
}

/// Appends an atom where it is wanted.
fn push_if(atoms: &mut List<ModAtom>, wanted: bool, atom: ModAtom) -> Result<(), OutOfMemory>
    ensures { OnOk result (atoms.new ≡ atoms.old ++ cond wanted (atom ∷ []) []) }
{
    if wanted {
        return atoms.push(atom);
    }
    Ok(())
}

/// Appends that a register has one of the statuses of a set.
#[tactic(auto, using(crate::proofs::Statuses::one_more))]
fn push_statuses(
    l: &Places,
    atoms: &mut List<ModAtom>,
    site: &Site,
    set: StatusSet,
    reg: Reg,
) -> Result<(), OutOfMemory>
    ensures { OnOk result (atoms.new ≡ atoms.old ++ map (test_at l.now) (is_one_of site.now set (reg_of reg))) }
{
    for number in 0..site.statuses() {
        push_if(
            atoms,
            set.has(Status8(number)),
            is(l, reg, u64::from(number)),
        )?;
    }
    Ok(())
}

/// Appends that a child's directory entry is in a set.
pub(crate) fn push_entry(
    l: &Places,
    atoms: &mut List<ModAtom>,
    site: &Site,
    set: StatusSet,
    kid: &Kid,
) -> Result<(), OutOfMemory>
    ensures { OnOk result (atoms.new ≡ atoms.old ++ map (test_at l.now) (entry_in site.now set kid.now)) }
{
    push_statuses(l, atoms, site, set, Reg::Entry(kid.object()))
}

/// Appends for one child after another that its directory entry is in a set.
fn push_each_entry(
    l: &Places,
    atoms: &mut List<ModAtom>,
    site: &Site,
    set: StatusSet,
    kids: &[Kid],
) -> Result<(), OutOfMemory>
    ensures { OnOk result (atoms.new ≡ atoms.old ++ flat_map (λ k. map (test_at l.now) (entry_in site.now set k)) kids.now) }
{
    for kid in kids {
        push_entry(l, atoms, site, set, kid)?;
    }
    Ok(())
}

/// Appends for each child that its directory entry is in a set.
fn push_entries(
    l: &Places,
    atoms: &mut List<ModAtom>,
    site: &Site,
    set: StatusSet,
    kids: &[Kid],
) -> Result<(), OutOfMemory>
    ensures { OnOk result (atoms.new ≡ atoms.old ++ map (test_at l.now) (flat_map (entry_in site.now set) kids.now)) }
{
    push_each_entry(l, atoms, site, set, kids)
}

/// Appends a clause with one test.
fn push_one(alloc: Global, clauses: &mut List<ModClause>, atom: ModAtom) -> Result<(), OutOfMemory>
    ensures { OnOk result (clauses.new ≡ clauses.old ++ record { atoms = atom ∷ [] } ∷ []) }
{
    let mut atoms = List::new(alloc);
    atoms.push(atom)?;
    clauses.push(ModClause { atoms })
}

/// Appends the clause that a child isn't awaited, or its response has an id.
fn push_response(
    alloc: Global,
    l: &Places,
    clauses: &mut List<ModClause>,
    id: MsgId,
    kid: &Kid,
) -> Result<(), OutOfMemory>
    ensures { OnOk result (clauses.new ≡ clauses.old ++ clause_at l.now (equals (awaits kid.now.1) 0 ∷ has_head (responses_of kid.now) id.0 ∷ []) ∷ []) }
{
    let mut atoms = List::new(alloc);
    atoms.push(is(l, Reg::Awaits(kid.object()), 0))?;
    atoms.push(head(l, Queue::UpResponses(kid.object()), id))?;
    clauses.push(ModClause { atoms })
}

/// Appends these clauses of all children.
fn push_responses(
    alloc: Global,
    l: &Places,
    clauses: &mut List<ModClause>,
    id: MsgId,
    kids: &[Kid],
) -> Result<(), OutOfMemory>
    ensures { OnOk result (clauses.new ≡ clauses.old ++ map (clause_at l.now) (map (λ k. equals (awaits k.1) 0 ∷ has_head (responses_of k) id.0 ∷ []) kids.now)) }
{
    for kid in kids {
        push_response(alloc, l, clauses, id, kid)?;
    }
    Ok(())
}

/// The clause that one of the children is awaited.
fn awaited(alloc: Global, l: &Places, kids: &[Kid]) -> Result<ModClause, OutOfMemory>
    ensures { IfOk result (λ c. c ≡ clause_at l.now (map (λ k. equals (awaits k.1) 1) kids.now)) }
{
    let mut atoms = List::new(alloc);
    for kid in kids {
        atoms.push(is(l, Reg::Awaits(kid.object()), 1))?;
    }
    Ok(ModClause { atoms })
}

/// The clause that a lock is held for one of the children.
fn held_for_kid(
    alloc: Global,
    l: &Places,
    site: &Site,
    side: Side,
    kids: &[Kid],
) -> Result<ModClause, OutOfMemory>
    ensures { IfOk result (λ c. c ≡ clause_at l.now (map (held_for site.now side) kids.now)) }
{
    let mut atoms = List::new(alloc);
    for kid in kids {
        atoms.push(held(l, site, side, kid))?;
    }
    Ok(ModClause { atoms })
}

/// Appends the clause that a register has one of the statuses of a set.
fn push_one_of(
    alloc: Global,
    l: &Places,
    clauses: &mut List<ModClause>,
    site: &Site,
    set: StatusSet,
    reg: Reg,
) -> Result<(), OutOfMemory>
    ensures { OnOk result (clauses.new ≡ clauses.old ++ clause_at l.now (is_one_of site.now set (reg_of reg)) ∷ []) }
{
    let mut atoms = List::new(alloc);
    push_statuses(l, &mut atoms, site, set, reg)?;
    clauses.push(ModClause { atoms })
}

/// Appends the clause that the directory entry of one of these children is in a set.
fn push_some(
    alloc: Global,
    l: &Places,
    clauses: &mut List<ModClause>,
    site: &Site,
    set: StatusSet,
    kids: &[Kid],
) -> Result<(), OutOfMemory>
    ensures { OnOk result (clauses.new ≡ clauses.old ++ clause_at l.now (flat_map (entry_in site.now set) kids.now) ∷ []) }
{
    let mut atoms = List::new(alloc);
    push_entries(l, &mut atoms, site, set, kids)?;
    clauses.push(ModClause { atoms })
}

/// Appends for each of these children the clause that its directory entry is in a set.
fn push_each(
    alloc: Global,
    l: &Places,
    clauses: &mut List<ModClause>,
    site: &Site,
    set: StatusSet,
    kids: &[Kid],
) -> Result<(), OutOfMemory>
    ensures { OnOk result (clauses.new ≡ clauses.old ++ map (clause_at l.now) (map (entry_in site.now set) kids.now)) }
{
    for kid in kids {
        push_one_of(alloc, l, clauses, site, set, Reg::Entry(kid.object()))?;
    }
    Ok(())
}

/// Appends a clause with a test before that a child's directory entry is in a set.
fn push_or(
    alloc: Global,
    l: &Places,
    clauses: &mut List<ModClause>,
    site: &Site,
    first: ModAtom,
    set: StatusSet,
    kid: &Kid,
) -> Result<(), OutOfMemory>
    ensures { OnOk result (clauses.new ≡ clauses.old ++ record { atoms = first ∷ map (test_at l.now) (entry_in site.now set kid.now) } ∷ []) }
{
    let mut atoms = List::new(alloc);
    atoms.push(first)?;
    push_entry(l, &mut atoms, site, set, kid)?;
    clauses.push(ModClause { atoms })
}

/// Appends for each child the clause that the lock is held for it, or its directory entry is in a set.
fn push_unless_held(
    alloc: Global,
    l: &Places,
    clauses: &mut List<ModClause>,
    site: &Site,
    side: Side,
    set: StatusSet,
    kids: &[Kid],
) -> Result<(), OutOfMemory>
    ensures { OnOk result (clauses.new ≡ clauses.old ++ map (clause_at l.now) (map (λ k. held_for site.now side k ∷ entry_in site.now set k) kids.now)) }
{
    for kid in kids {
        push_or(alloc, l, clauses, site, held(l, site, side, kid), set, kid)?;
    }
    Ok(())
}

/// Appends for each child the clause that the lock isn't held for it, or its directory entry is in a set.
fn push_where_held(
    alloc: Global,
    l: &Places,
    clauses: &mut List<ModClause>,
    site: &Site,
    side: Side,
    set: StatusSet,
    kids: &[Kid],
) -> Result<(), OutOfMemory>
    ensures { OnOk result (clauses.new ≡ clauses.old ++ map (clause_at l.now) (map (λ k. not_held_for site.now side k ∷ entry_in site.now set k) kids.now)) }
{
    for kid in kids {
        push_or(
            alloc,
            l,
            clauses,
            site,
            not_held(l, site, side, kid),
            set,
            kid,
        )?;
    }
    Ok(())
}

/// Appends the clause that the lock isn't held for a child, or the directory entry of one of the others is in a set.
fn push_other(
    alloc: Global,
    l: &Places,
    clauses: &mut List<ModClause>,
    site: &Site,
    side: Side,
    set: StatusSet,
    kid: &Kid,
) -> Result<(), OutOfMemory>
    ensures { OnOk result (clauses.new ≡ clauses.old ++ clause_at l.now (not_held_for site.now side kid.now ∷ flat_map (entry_in site.now set) (others_at site.now (Some kid.now.0))) ∷ []) }
{
    let mut atoms = List::new(alloc);
    atoms.push(not_held(l, site, side, kid))?;
    let rest = others(alloc, site.kids(), Some(kid.place()))?;
    push_entries(l, &mut atoms, site, set, rest.as_slice())?;
    clauses.push(ModClause { atoms })
}

/// Appends these clauses of all children.
fn push_others(
    alloc: Global,
    l: &Places,
    clauses: &mut List<ModClause>,
    site: &Site,
    side: Side,
    set: StatusSet,
    kids: &[Kid],
) -> Result<(), OutOfMemory>
    ensures { OnOk result (clauses.new ≡ clauses.old ++ map (clause_at l.now) (map (λ k. not_held_for site.now side k ∷ flat_map (entry_in site.now set) (others_at site.now (Some k.0))) kids.now)) }
{
    for kid in kids {
        push_other(alloc, l, clauses, site, side, set, kid)?;
    }
    Ok(())
}

/// For whom a rule works: one child, or the processor where none is named; or whom a lock is held for.
#[derive(Clone, Copy, Debug, PartialEq, Eq)]
pub(crate) enum Asker {
    Fixed(Option<u8>),
    Holder(Side),
}

/// Whom a rule works for.
pub(crate) fn works_for(take: Take, me: Option<u8>) -> Asker
    ensures { asker_is result ≡ asker_of take me }
{
    match take {
        Take::Me(_) => Asker::Fixed(me),
        Take::Parent(_) => Asker::Holder(Side::Up),
        Take::Kids(_) => Asker::Holder(Side::Down),
        Take::Nothing => Asker::Fixed(None),
    }
}

/// Appends the clauses that the requester's entry is in a set.
fn push_me(
    alloc: Global,
    l: &Places,
    clauses: &mut List<ModClause>,
    site: &Site,
    who: Asker,
    set: StatusSet,
) -> Result<(), OutOfMemory>
    ensures { OnOk result (clauses.new ≡ clauses.old ++ map (clause_at l.now) (me_clauses site.now (asker_is who) set)) }
{
    match who {
        Asker::Fixed(me) => {
            let kids = named(alloc, site.kids(), me)?;
            push_some(alloc, l, clauses, site, set, kids.as_slice())
        }
        Asker::Holder(side) => push_where_held(alloc, l, clauses, site, side, set, site.kids()),
    }
}

/// Appends the clauses that the entries of all but the requester are in a set.
fn push_others_all(
    alloc: Global,
    l: &Places,
    clauses: &mut List<ModClause>,
    site: &Site,
    who: Asker,
    set: StatusSet,
) -> Result<(), OutOfMemory>
    ensures { OnOk result (clauses.new ≡ clauses.old ++ map (clause_at l.now) (others_all site.now (asker_is who) set)) }
{
    match who {
        Asker::Fixed(me) => {
            let kids = others(alloc, site.kids(), me)?;
            push_each(alloc, l, clauses, site, set, kids.as_slice())
        }
        Asker::Holder(side) => push_unless_held(alloc, l, clauses, site, side, set, site.kids()),
    }
}

/// Appends the clauses that the entry of one but the requester is in a set.
fn push_others_any(
    alloc: Global,
    l: &Places,
    clauses: &mut List<ModClause>,
    site: &Site,
    who: Asker,
    set: StatusSet,
) -> Result<(), OutOfMemory>
    ensures { OnOk result (clauses.new ≡ clauses.old ++ map (clause_at l.now) (others_any site.now (asker_is who) set)) }
{
    match who {
        Asker::Fixed(me) => {
            let kids = others(alloc, site.kids(), me)?;
            push_some(alloc, l, clauses, site, set, kids.as_slice())
        }
        Asker::Holder(side) => push_others(alloc, l, clauses, site, side, set, site.kids()),
    }
}

/// The register of the id that a lock keeps.
pub(crate) fn asked(site: &Site, side: Side) -> Reg
    ensures { reg_of result ≡ lock side asked site.now.object }
{
    match side {
        Side::Up => Reg::Up(Part::Asked, site.object()),
        Side::Down => Reg::Down(Part::Asked, site.object()),
    }
}

/// Appends the clause that the request that the requester's lock keeps has an id.
fn push_asked(
    alloc: Global,
    l: &Places,
    clauses: &mut List<ModClause>,
    site: &Site,
    who: Asker,
    id: MsgId,
) -> Result<(), OutOfMemory>
    ensures { OnOk result (clauses.new ≡ clauses.old ++ map (clause_at l.now) (asked_clauses site.now (asker_is who) id.0)) }
{
    match who {
        Asker::Fixed(_) => clauses.push(ModClause {
            atoms: List::new(alloc),
        }),
        Asker::Holder(side) => {
            push_one(alloc, clauses, is(l, asked(site, side), u64::from(id.0)))
        }
    }
}

/// Appends the clauses that a condition of a guard holds.
fn push_atom(
    alloc: Global,
    l: &Places,
    clauses: &mut List<ModClause>,
    site: &Site,
    who: Asker,
    atom: Atom,
) -> Result<(), OutOfMemory>
    ensures { OnOk result (clauses.new ≡ clauses.old ++ map (clause_at l.now) (atom_clauses site.now (asker_is who) atom)) }
{
    match atom {
        Atom::Field(place, set) => {
            push_one_of(
                alloc,
                l,
                clauses,
                site,
                set,
                Reg::Field(place, site.object()),
            )
        }
        Atom::Me(set) => push_me(alloc, l, clauses, site, who, set),
        Atom::KidsAll(set) => push_each(alloc, l, clauses, site, set, site.kids()),
        Atom::KidsAny(set) => push_some(alloc, l, clauses, site, set, site.kids()),
        Atom::OthersAll(set) => push_others_all(alloc, l, clauses, site, who, set),
        Atom::OthersAny(set) => push_others_any(alloc, l, clauses, site, who, set),
        Atom::Asked(id) => push_asked(alloc, l, clauses, site, who, id),
    }
}

/// The queue of the requests that a rule takes: of the named child, or else of the processor.
pub(crate) fn requests(site: &Site, me: Option<u8>) -> Queue
    ensures { queue_of result ≡ requests_of site.now me }
{
    match me {
        None => Queue::Requests(site.object()),
        Some(place) => Queue::UpRequests(site.child(place)),
    }
}

/// Appends the clauses that the awaited children's responses are there.
fn push_taken_kids(
    alloc: Global,
    l: &Places,
    clauses: &mut List<ModClause>,
    id: MsgId,
    kids: &[Kid],
) -> Result<(), OutOfMemory>
    ensures { OnOk result (clauses.new ≡ clauses.old ++ (map (clause_at l.now) (map (λ k. equals (awaits k.1) 0 ∷ has_head (responses_of k) id.0 ∷ []) kids.now) ++ clause_at l.now (map (λ k. equals (awaits k.1) 1) kids.now) ∷ [])) }
{
    push_responses(alloc, l, clauses, id, kids)?;
    let clause = awaited(alloc, l, kids)?;
    clauses.push(clause)
}

/// Appends the clauses that the messages that a rule takes are there.
fn push_take(
    alloc: Global,
    l: &Places,
    clauses: &mut List<ModClause>,
    site: &Site,
    me: Option<u8>,
    take: Take,
) -> Result<(), OutOfMemory>
    ensures { OnOk result (clauses.new ≡ clauses.old ++ map (clause_at l.now) (take_clauses site.now me take)) }
{
    match take {
        Take::Me(id) => push_one(alloc, clauses, head(l, requests(site, me), id)),
        Take::Parent(id) => push_one(alloc, clauses, head(l, Queue::Down(site.object()), id)),
        Take::Kids(id) => push_taken_kids(alloc, l, clauses, id, site.kids()),
        Take::Nothing => Ok(()),
    }
}

/// Appends the clause that a lock is held for a child or, on a leaf, for the processor.
fn push_held(
    alloc: Global,
    l: &Places,
    clauses: &mut List<ModClause>,
    site: &Site,
    side: Side,
) -> Result<(), OutOfMemory>
    ensures { OnOk result (clauses.new ≡ clauses.old ++ clause_at l.now (child_need site.now.kind site.now side) ∷ []) }
{
    match site.kind() {
        Kind::Leaf => push_one(alloc, clauses, is(l, origin(site, side), 3)),
        Kind::Root | Kind::Mid => {
            let clause = held_for_kid(alloc, l, site, side, site.kids())?;
            clauses.push(clause)
        }
    }
}

/// Appends the clauses that a lock is as a rule needs it.
fn push_need(
    alloc: Global,
    l: &Places,
    clauses: &mut List<ModClause>,
    site: &Site,
    side: Side,
    need: Hold,
) -> Result<(), OutOfMemory>
    ensures { OnOk result (clauses.new ≡ clauses.old ++ map (clause_at l.now) (need_clauses site.now side need)) }
{
    match need {
        Hold::Any => Ok(()),
        Hold::Free => push_one(alloc, clauses, is(l, origin(site, side), 0)),
        Hold::Own => push_one(alloc, clauses, is(l, origin(site, side), 1)),
        Hold::Parent => push_one(alloc, clauses, is(l, origin(site, side), 2)),
        Hold::Child => push_held(alloc, l, clauses, site, side),
    }
}

/// Appends the clauses of one condition after another.
fn push_each_atom(
    alloc: Global,
    l: &Places,
    clauses: &mut List<ModClause>,
    site: &Site,
    who: Asker,
    guard: &[Atom],
) -> Result<(), OutOfMemory>
    ensures { OnOk result (clauses.new ≡ clauses.old ++ flat_map (λ a. map (clause_at l.now) (atom_clauses site.now (asker_is who) a)) guard.now) }
{
    for atom in guard {
        push_atom(alloc, l, clauses, site, who, *atom)?;
    }
    Ok(())
}

/// Appends the clauses of a guard.
fn push_guard(
    alloc: Global,
    l: &Places,
    clauses: &mut List<ModClause>,
    site: &Site,
    who: Asker,
    guard: &[Atom],
) -> Result<(), OutOfMemory>
    ensures { OnOk result (clauses.new ≡ clauses.old ++ map (clause_at l.now) (flat_map (atom_clauses site.now (asker_is who)) guard.now)) }
{
    push_each_atom(alloc, l, clauses, site, who, guard)
}

/// Appends the clauses that a send to children reaches one.
fn push_reach(
    alloc: Global,
    l: &Places,
    clauses: &mut List<ModClause>,
    site: &Site,
    who: Asker,
    send: SendTo,
) -> Result<(), OutOfMemory>
    ensures { OnOk result (clauses.new ≡ clauses.old ++ map (clause_at l.now) (send_clauses site.now (asker_is who) send)) }
{
    match send {
        SendTo::Kids(set, _, _) => push_some(alloc, l, clauses, site, set, site.kids()),
        SendTo::Others(set, _, _) => push_others_any(alloc, l, clauses, site, who, set),
        SendTo::Nothing | SendTo::Me(_, _) | SendTo::Parent(_, _) => Ok(()),
    }
}

/// Appends what a rule takes and needs.
fn push_begin(
    alloc: Global,
    l: &Places,
    clauses: &mut List<ModClause>,
    site: &Site,
    me: Option<u8>,
    rule: &Rule,
) -> Result<(), OutOfMemory>
    ensures { OnOk result (clauses.new ≡ clauses.old ++ (map (clause_at l.now) (take_clauses site.now me rule.now.take) ++ map (clause_at l.now) (need_clauses site.now Up rule.now.need.up) ++ map (clause_at l.now) (need_clauses site.now Down rule.now.need.down))) }
{
    push_take(alloc, l, clauses, site, me, rule.take)?;
    push_need(alloc, l, clauses, site, Side::Up, rule.need.up)?;
    push_need(alloc, l, clauses, site, Side::Down, rule.need.down)
}

/// Appends the clauses of a rule, part after part.
fn push_parts(
    alloc: Global,
    l: &Places,
    clauses: &mut List<ModClause>,
    site: &Site,
    me: Option<u8>,
    rule: &Rule,
) -> Result<(), OutOfMemory>
    ensures { OnOk result (clauses.new ≡ clauses.old ++ (map (clause_at l.now) (take_clauses site.now me rule.now.take) ++ map (clause_at l.now) (need_clauses site.now Up rule.now.need.up) ++ map (clause_at l.now) (need_clauses site.now Down rule.now.need.down) ++ map (clause_at l.now) (flat_map (atom_clauses site.now (asker_of rule.now.take me)) rule.now.guard) ++ map (clause_at l.now) (send_clauses site.now (asker_of rule.now.take me) rule.now.send))) }
{
    let who = works_for(rule.take, me);
    push_begin(alloc, l, clauses, site, me, rule)?;
    push_guard(alloc, l, clauses, site, who, rule.guard.as_slice())?;
    push_reach(alloc, l, clauses, site, who, rule.send)
}

/// The clauses of a rule.
#[tactic(auto, using(crate::proofs::Statuses::map_five))]
pub(crate) fn clauses(
    alloc: Global,
    l: &Places,
    site: &Site,
    me: Option<u8>,
    rule: &Rule,
) -> Result<List<ModClause>, OutOfMemory>
    ensures { IfOk result (λ c. c ≡ map (clause_at l.now) (clauses_of site.now me rule.now)) }
{
    let mut clauses = List::new(alloc);
    push_parts(alloc, l, &mut clauses, site, me, rule)?;
    Ok(clauses)
}
