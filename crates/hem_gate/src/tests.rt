//! Whole runs.

ghost use Rattle.std.specs.Prelude.{◌<◌, length, IfOk};
ghost use Rattle.hem_work.specs.Lawful.{IsLawfulWork};

use crate::meeting::Meeting;
use hem_check::{Accepted, check};
use hem_document::{WorkDocument, read_work_document};
use hem_io::OpenGate;
use hem_ring::RingNet;
use hem_runner::{Tally, run, tally_run};
use hem_syntax::Protocol;
use hem_system::{Lane, System};
use hem_tree::{SetupError, Tree};
use hem_wire::{BoxNet, Net};
use hem_work::{RawWork, Work};
use std::alloc::Global;
use std::test::Fail;
use std::thread::Threads;

/// A leaf that answers each load at once, and a single load.
const SINGLE_LOAD: &[u8] = b"protocol one
status I S
message Ld ext_req
message LdR ext_rsp
kind root dir init I end
kind mid dir init I end
kind leaf field st init S
rule ld_hit take me Ld need up free down free
when st in S send me LdR val end
end
end
tree root(leaf)
work lines 1 self 0 at 1 line 0 Ld 0 end
";

/// The same with two leaves, and three loads at each.
const SIX_LOADS: &[u8] = b"protocol one
status I S
message Ld ext_req
message LdR ext_rsp
kind root dir init I end
kind mid dir init I end
kind leaf field st init S
rule ld_hit take me Ld need up free down free
when st in S send me LdR val end
end
end
tree root(leaf leaf)
work lines 1 self 0 at 1 line 0 Ld 0 Ld 0 Ld 0 at 2 line 0 Ld 0 Ld 0 Ld 0 end
";

/// A leaf sends its value up, and nobody takes it: accepted, and stuck after its one firing.
const LOST: &[u8] = b"protocol lost
status I S
message Put up_req
kind root dir init I end
kind mid dir init I end
kind leaf field st init S
rule evict take none need up free down free lock up self send parent Put val end
end
end
tree root(leaf)
work lines 1 self 1 end
";

/// Eight leaves below two mids, on four lines.
const EIGHT_LEAVES: &[u8] = b"use mesi_noninclusive
tree root(mid(leaf leaf leaf leaf) mid(leaf leaf leaf leaf))
work lines 4 self 2 end
";

/// A work that is ready for runs.
#[derive(Drop)]
struct Ready {
    accepted: Accepted,
    tree: Tree,
    work: Work,
}

/// The work of the text, with so many requests after its own, generated from the seed 7.
fn work_of(
    alloc: Global,
    raw: &RawWork,
    p: &Protocol,
    tree: &Tree,
    count: u32,
) -> Result<Work, SetupError>
    ensures { IfOk result (IsLawfulWork p.now tree.now) }
{
    let work = Work::build(alloc, raw, p, tree)?;
    match count {
        0 => Ok(work),
        _ => work.make(alloc, p, tree, count, 7),
    }
}

/// A document's work, with so many generated requests.
fn prepared(alloc: Global, text: &[u8], count: u32) -> Result<Ready, Fail>
    requires { length text.now < 4294967295 }
    ensures { IfOk result (λ r. IsLawfulWork r.accepted r.tree r.work) }
{
    let WorkDocument {
        protocol,
        tree,
        work,
    } = read_work_document(alloc, text)?;
    let Ok(accepted) = check(protocol) else {
        return Err("the protocol is refused")?;
    };
    let tree = Tree::build(alloc, &tree)?;
    let work = work_of(alloc, &work, accepted.protocol(), &tree, count)?;
    Ok(Ready {
        accepted,
        tree,
        work,
    })
}

#[test]
fn two_workers_run_at_the_same_time(rt: HostRuntime) -> Result<(), Fail> {
    let alloc = rt.alloc();
    let it = prepared(alloc, SIX_LOADS, 0)?;
    let mut net = RingNet::new();
    let meeting = Meeting::new();
    let ran = run(
        &rt,
        alloc,
        &it.accepted,
        &it.tree,
        &it.work,
        &mut net,
        &meeting,
    )?;
    assert_eq!(rt; meeting.counts(), [3, 3, 0, 0]);
    assert_eq!(rt; ran.journal.len(), 6);
    assert!(rt; ran.system.quiet());
    Ok(())
}

/// How two runs ended: how many firings the first made and what its state comes to, and what the second came to.
#[derive(Clone, Copy)]
struct Ended {
    firings: usize,
    state: Tally,
    told: Tally,
}

/// How many answers a state has.
fn answers_in(s: &System) -> u64 {
    let mut count: u64 = 0;
    for line in 0..s.lines() {
        for object in 0..s.objects(line) {
            count = count.saturating_add(s.list_at(line, object, Lane::Answers).len() as u64);
        }
    }
    count
}

/// How runs of a work over a net ended.
fn over_net<R: Threads + Sync, N: Net + Send>(
    rt: &R,
    alloc: Global,
    it: &Ready,
    net: &mut N,
) -> Result<Ended, Fail>
    requires { IsLawfulWork it.now.accepted it.now.tree it.now.work }
{
    let ran = run(rt, alloc, &it.accepted, &it.tree, &it.work, net, &OpenGate)?;
    let told = tally_run(rt, alloc, &it.accepted, &it.tree, &it.work, net, &OpenGate)?;
    Ok(Ended {
        firings: ran.journal.len(),
        state: Tally {
            quiet: ran.system.quiet(),
            answers: answers_in(&ran.system),
        },
        told,
    })
}

/// How runs of the document over both nets ended, with so many generated requests.
fn over_both<R: Threads + Sync>(
    rt: &R,
    alloc: Global,
    text: &[u8],
    count: u32,
) -> Result<[Ended; 2], Fail>
    requires { length text.now < 4294967295 }
{
    let it = prepared(alloc, text, count)?;
    let boxes = over_net(rt, alloc, &it, &mut BoxNet::new())?;
    let rings = over_net(rt, alloc, &it, &mut RingNet::new())?;
    Ok([boxes, rings])
}

#[test]
fn a_load_runs_over_both_nets(rt: HostRuntime) -> Result<(), Fail> {
    for end in over_both(&rt, rt.alloc(), SINGLE_LOAD, 0)? {
        assert_eq!(rt; end.firings, 1);
        assert!(rt; end.state.quiet && end.told.quiet);
        assert_eq!(rt; (end.state.answers, end.told.answers), (1, 1));
    }
    Ok(())
}

#[test]
fn a_lost_message_leaves_both_nets_stuck(rt: HostRuntime) -> Result<(), Fail> {
    for end in over_both(&rt, rt.alloc(), LOST, 0)? {
        assert_eq!(rt; end.firings, 1);
        assert!(rt; !end.state.quiet && !end.told.quiet);
        assert_eq!(rt; (end.state.answers, end.told.answers), (0, 0));
    }
    Ok(())
}

#[test]
fn a_realistic_load_is_answered_over_both_nets(rt: HostRuntime) -> Result<(), Fail> {
    for end in over_both(&rt, rt.alloc(), EIGHT_LEAVES, 20_000)? {
        assert!(rt; end.state.quiet && end.told.quiet);
        assert_eq!(rt; (end.state.answers, end.told.answers), (20_000, 20_000));
    }
    Ok(())
}
