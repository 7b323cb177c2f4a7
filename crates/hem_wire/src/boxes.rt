//! Channels whose receiving end learns of messages at a settle alone.

ghost use Rattle.std.specs.Prelude.{◌≡◌, ◌-◌, ◌≤◌, ◌<◌, IsTrue, slice_get, true};
ghost use mathlib.Core.List.{IsPrefix};
ghost use Rattle.rtrb.specs.Ring.{sent, known_free, received, known_items};

use crate::ends::{Net, Rx, Tx};
use hem_base::{Carried, OutOfMemory};
use rtrb::{Consumer, Producer, RingBuffer};
use std::alloc::Global;

/// The sending end of a box. Its channel is a ring.
#[derive(Drop)]
pub struct BoxOut {
    producer: Producer<Carried>,
    reserved: bool,
    fresh: bool,
    ghost held: { IsTrue reserved → 0 < known_free producer },
}

/// The receiving end of a box: it knows only of what stood there at the last settle.
#[derive(Drop)]
pub struct BoxIn {
    consumer: Consumer<Carried>,
}

/// Makes boxes: channels over rings, whose receiving end shows only what stood there at the last settle.
#[derive(Drop)]
pub struct BoxNet;

impl BoxNet {
    /// It takes no memory.
    pub fn new() -> BoxNet {
        BoxNet
    }
}

impl Tx for BoxOut {
    ghost use Rattle.std.specs.Prelude.{◌-◌, if◌then◌else◌};
    ghost use Rattle.rtrb.specs.Ring.{sent, known_free};
    ghost use Rattle.hem_wire.specs.Boxes.{producer_channel};

    ghost channel = { λ s. producer_channel s.producer };

    ghost sent = { λ s. sent s.producer };

    ghost free = { λ s. known_free s.producer - (if s.reserved then 1 else 0) };

    ghost reserved = { λ s. s.reserved };

    ghost fresh = { λ s. s.fresh };

    fn reserve(&mut self) -> bool {
        if !self.reserved
            && (self.producer.cached_slots() > 0 || (!self.fresh && self.producer.slots() > 0))
        {
            self.reserved = true;
        }
        self.fresh = false;
        self.reserved
    }

    fn put(&mut self, c: Carried) {
        self.reserved = false;
        self.producer.push_reserved(c);
    }
}

impl Rx for BoxIn {
    ghost use Rattle.std.specs.Prelude.{◌≡◌, slice_get, true};
    ghost use mathlib.Core.List.{IsPrefix};
    ghost use Rattle.rtrb.specs.Ring.{known_items, received as taken};
    ghost use Rattle.hem_wire.specs.Boxes.{consumer_channel};

    ghost channel = { λ s. consumer_channel s.consumer };

    ghost received = { λ s. taken s.consumer };

    ghost known = { λ s. known_items s.consumer };

    ghost fresh = { λ _. true };

    fn peek(&mut self) -> Option<Carried>
        ensures same { self.new ≡ self.old }
        ensures exact { IsTrue true → known_items self.new.consumer ≡ known_items self.old.consumer }
        ensures channel { consumer_channel self.new.consumer ≡ consumer_channel self.old.consumer }
        ensures received { taken self.new.consumer ≡ taken self.old.consumer }
        ensures first { result ≡ slice_get (known_items self.new.consumer) 0 }
        ensures forgets_none { IsPrefix (known_items self.old.consumer) (known_items self.new.consumer) }
    {
        if self.consumer.cached_slots() == 0 {
            None
        } else {
            Some(*self.consumer.peek_known())
        }
    }

    fn take(&mut self) -> Carried {
        self.consumer.pop_known()
    }
}

impl Net for BoxNet {
    type Out = BoxOut;

    type In = BoxIn;

    fn pair(&mut self, alloc: Global, slots: usize) -> Result<(BoxOut, BoxIn), OutOfMemory> {
        let (producer, consumer) = RingBuffer::new(alloc, slots)?;
        Ok((
            BoxOut {
                producer,
                reserved: false,
                fresh: false,
            },
            BoxIn { consumer },
        ))
    }

    fn settle(&mut self, tx: &mut BoxOut, rx: &mut BoxIn) {
        // The second call leaves the consumer as it was. No contract says so, but a third would show it.
        let waiting = rx.consumer.slots_beside(&mut tx.producer);
        tx.producer.slots_beside(&mut rx.consumer);
        if rx.consumer.cached_slots() != waiting {
            rx.consumer.slots_beside(&mut tx.producer);
            unreachable!();
        }
        tx.fresh = true;
    }
}
