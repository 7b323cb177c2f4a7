//! A gate at which two objects meet.

use hem_base::Gate;
use std::sync::atomic::{AtomicU64, Ordering};

/// How many times a worker looks for the other before it gives up.
const LOOKS: u64 = 100_000_000;

/// Holds each of the objects 1 and 2 after its firing k until the other has made its firing k.
#[derive(Drop)]
pub(crate) struct Meeting {
    /// How many firings object 1 made, and object 2.
    first: AtomicU64,
    second: AtomicU64,
    /// How many holds ended without the other.
    late: AtomicU64,
    /// How many calls were out of order.
    broken: AtomicU64,
}

impl Meeting {
    pub(crate) fn new() -> Meeting {
        Meeting {
            first: AtomicU64::new(0),
            second: AtomicU64::new(0),
            late: AtomicU64::new(0),
            broken: AtomicU64::new(0),
        }
    }

    /// What was counted: the firings of the two objects, the holds that ended without the other, and the calls out of order.
    pub(crate) fn counts(&self) -> [u64; 4] {
        [
            self.first.load(Ordering::SeqCst),
            self.second.load(Ordering::SeqCst),
            self.late.load(Ordering::SeqCst),
            self.broken.load(Ordering::SeqCst),
        ]
    }
}

impl Gate for Meeting {
    fn pass(&self, object: u32, fired: u64) {
        let before = if object == 1 {
            self.first.swap(fired, Ordering::SeqCst)
        } else {
            self.second.swap(fired, Ordering::SeqCst)
        };
        if before.wrapping_add(1) != fired {
            self.broken.fetch_add(1, Ordering::SeqCst);
        }
        for _ in 0..LOOKS {
            let other = if object == 1 {
                self.second.load(Ordering::SeqCst)
            } else {
                self.first.load(Ordering::SeqCst)
            };
            if other >= fired {
                return;
            }
        }
        self.late.fetch_add(1, Ordering::SeqCst);
    }
}
