//! Rings between running threads. After a settle an end's first look is at what the settle showed; later looks are at the
//! ring itself.

ghost use Rattle.std.specs.Prelude.{◌≡◌, ◌-◌, ◌≤◌, ◌<◌, IsTrue};
ghost use Rattle.rtrb.specs.Ring.{sent, known_free, received, known_items};

use hem_base::{Carried, OutOfMemory};
use hem_wire::{Net, Rx, Tx};
use rtrb::{Consumer, Producer, RingBuffer};
use std::alloc::Global;

/// The sending end of a ring. It looks at the other end where it knows of no free slot.
#[derive(Drop)]
pub struct RingOut {
    producer: Producer<Carried>,
    reserved: bool,
    fresh: bool,
    ghost held: { IsTrue reserved → 0 < known_free producer },
}

/// The receiving end of a ring. It looks at the other end where it knows of no message.
#[derive(Drop)]
pub struct RingIn {
    consumer: Consumer<Carried>,
    fresh: bool,
}

/// Makes rings: channels whose ends see what the other end does while both are in use.
#[derive(Drop)]
pub struct RingNet;

impl RingNet {
    /// It takes no memory.
    pub fn new() -> RingNet {
        RingNet
    }
}

impl Tx for RingOut {
    ghost use Rattle.std.specs.Prelude.{◌-◌, if◌then◌else◌};
    ghost use Rattle.rtrb.specs.Ring.{sent, known_free};
    ghost use Rattle.hem_wire.specs.Boxes.{producer_channel};

    ghost channel = { λ s. producer_channel s.producer };

    ghost sent = { λ s. sent s.producer };

    ghost free = { λ s. known_free s.producer - (if s.reserved then 1 else 0) };

    ghost reserved = { λ s. s.reserved };

    ghost fresh = { λ s. s.fresh };

    fn reserve(&mut self) -> bool {
        if !self.reserved
            && (self.producer.cached_slots() > 0 || (!self.fresh && self.producer.slots() > 0))
        {
            self.reserved = true;
        }
        self.fresh = false;
        self.reserved
    }

    fn put(&mut self, c: Carried) {
        self.reserved = false;
        self.producer.push_reserved(c);
    }
}

impl Rx for RingIn {
    ghost use Rattle.rtrb.specs.Ring.{received, known_items};
    ghost use Rattle.hem_wire.specs.Boxes.{consumer_channel};

    ghost channel = { λ s. consumer_channel s.consumer };

    ghost received = { λ s. received s.consumer };

    ghost known = { λ s. known_items s.consumer };

    ghost fresh = { λ s. s.fresh };

    fn peek(&mut self) -> Option<Carried> {
        let fresh = self.fresh;
        self.fresh = false;
        if self.consumer.cached_slots() == 0 && (fresh || self.consumer.slots() == 0) {
            None
        } else {
            Some(*self.consumer.peek_known())
        }
    }

    fn take(&mut self) -> Carried {
        self.consumer.pop_known()
    }
}

impl Net for RingNet {
    type Out = RingOut;

    type In = RingIn;

    fn pair(&mut self, alloc: Global, slots: usize) -> Result<(RingOut, RingIn), OutOfMemory> {
        let (producer, consumer) = RingBuffer::new(alloc, slots)?;
        Ok((
            RingOut {
                producer,
                reserved: false,
                fresh: false,
            },
            RingIn {
                consumer,
                fresh: false,
            },
        ))
    }

    fn settle(&mut self, tx: &mut RingOut, rx: &mut RingIn) {
        // The second call leaves the consumer as it was. No contract says so, but a third would show it.
        let waiting = rx.consumer.slots_beside(&mut tx.producer);
        tx.producer.slots_beside(&mut rx.consumer);
        if rx.consumer.cached_slots() != waiting {
            rx.consumer.slots_beside(&mut tx.producer);
            unreachable!();
        }
        tx.fresh = true;
        rx.fresh = true;
    }
}
