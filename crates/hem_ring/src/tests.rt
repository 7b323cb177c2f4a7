use crate::RingNet;
use hem_base::{Carried, LineId, Message, MsgId};
use hem_wire::{BoxNet, Net, Rx, Tx};
use std::alloc::Global;
use std::process::Abort;
use std::test::Fail;

fn carried(n: u64) -> Carried {
    Carried {
        line: LineId(0),
        message: Message {
            id: MsgId(0),
            value: n,
        },
        stamp: n,
    }
}

// Fills a channel of two slots and empties it again, with a settle between.
fn exchange<N: Net, R: Abort>(rt: &R, alloc: Global, net: &mut N) -> Result<(), Fail> {
    let (mut tx, mut rx) = net.pair(alloc, 2)?;
    assert!(rt; tx.reserve());
    tx.put(carried(7));
    assert!(rt; tx.reserve());
    tx.put(carried(8));
    net.settle(&mut tx, &mut rx);
    assert!(rt; !tx.reserve());
    let first = rx.peek();
    assert_eq!(rt; first, Some(carried(7)));
    if first.is_some() {
        let taken = rx.take();
        assert_eq!(rt; taken, carried(7));
    }
    net.settle(&mut tx, &mut rx);
    assert!(rt; tx.reserve());
    Ok(())
}

#[test]
fn both_nets_carry(rt: HostRuntime) -> Result<(), Fail> {
    exchange(&rt, rt.alloc(), &mut BoxNet::new())?;
    exchange(&rt, rt.alloc(), &mut RingNet::new())?;
    Ok(())
}

// What a receiving end sees of a message that was put since the last settle.
fn seen_unsettled<N: Net>(alloc: Global, net: &mut N) -> Result<Option<Carried>, Fail> {
    let (mut tx, mut rx) = net.pair(alloc, 1)?;
    if tx.reserve() {
        tx.put(carried(7));
    }
    Ok(rx.peek())
}

#[test]
fn a_ring_shows_a_message_with_no_settle_between(rt: HostRuntime) -> Result<(), Fail> {
    assert_eq!(rt;
        seen_unsettled(rt.alloc(), &mut RingNet::new())?,
        Some(carried(7))
    );
    assert_eq!(rt; seen_unsettled(rt.alloc(), &mut BoxNet::new())?, None);
    Ok(())
}
