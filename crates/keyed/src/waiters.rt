//! Threads that wait for messages.
ghost use Rattle.std.specs.Prelude.{◌≡◌, IfSome};
ghost use Rattle.keyed.specs.Bindings.{FitsBinding};
ghost use Rattle.keyed.specs.Queues.{receives_as};

use crate::ends::QueueReceiver;
use crate::rule::Fits;
use std::sync::Wait;
use std::sync::atomic::{AtomicU64, Ordering};

/// How often a lone thread looks for its message before it sleeps: `TURNS` times `LOOKS`. Before each turn it sees
/// whether another thread waits too.
const TURNS: u32 = 100;

const LOOKS: u32 = 10;

/// The threads that wait for messages of some queues. Where one waits alone, it looks for its message for a while
/// before it sleeps, since a processor is likely to be free. Where several wait, each sleeps at once.
#[derive(Drop)]
pub struct Waiters {
    count: AtomicU64,
}

impl Waiters {
    /// None so far.
    pub fn new() -> Waiters {
        Waiters {
            count: AtomicU64::new(0),
        }
    }

    /// Waits for a message. Gives `None` once all ends that send are gone and the queue is empty.
    pub fn receive<T: Drop, K, P: Fits<T, K>, R: Wait>(
        &self,
        rt: &R,
        from: &mut QueueReceiver<T, K, P>,
    ) -> Option<T>
        ensures same { receives_as from.new ≡ receives_as from.old }
        ensures fits { IfSome result (FitsBinding P.fits (receives_as from.old)) }
    {
        self.count.fetch_add(1, Ordering::Relaxed);
        let found = match self.look_alone(rt, from) {
            Some(message) => Some(message),
            None => from.receive(rt).ok(),
        };
        self.count.fetch_sub(1, Ordering::Relaxed);
        found
    }

    // Looks for a message for a while, as long as no other thread waits.
    fn look_alone<T: Drop, K, P: Fits<T, K>, R: Wait>(
        &self,
        rt: &R,
        from: &mut QueueReceiver<T, K, P>,
    ) -> Option<T>
        ensures same { receives_as from.new ≡ receives_as from.old }
        ensures fits { IfSome result (FitsBinding P.fits (receives_as from.old)) }
    {
        for _ in 0..TURNS {
            if self.count.load(Ordering::Relaxed) > 1 {
                return None;
            }
            if let Some(message) = from.look(rt, LOOKS) {
                return Some(message);
            }
        }
        None
    }
}
