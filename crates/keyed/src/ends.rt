//! The ends of queues. Each end keeps its own seat at its queue.
ghost use Rattle.crossbeam_channel.specs.Claims.{IsSeatAt};
ghost use Rattle.crossbeam_channel.specs.Ends.{sends_on, receives_on};

use crate::binding::{Binds, EndView, Gets, Same, Sends};
use crate::rule::Fits;
use crossbeam_channel::{Pass, RuledReceiver, RuledSender};
use std::alloc::AllocError;
use std::sync::Wait;
use std::thread;

/// All sending ends of a queue are gone, and no message is left in it. Only a receiving end that has found it so gives
/// this.
#[derive(Drop)]
pub struct Gone {
    found: (),
}

/// The sending end of a queue.
#[derive(Drop)]
pub struct QueueSender<T: Drop, K, P: Fits<T, K>> {
    pub(crate) to: RuledSender<T, EndView<T, K>, Binds<P>>,
    pub(crate) port: Pass<T, EndView<T, K>>,
    ghost seated: { IsSeatAt (sends_on to) port },
}

/// The receiving end of a queue.
#[derive(Drop)]
pub struct QueueReceiver<T: Drop, K, P: Fits<T, K>> {
    pub(crate) from: RuledReceiver<T, EndView<T, K>, Binds<P>>,
    pub(crate) port: Pass<T, EndView<T, K>>,
    ghost seated: { IsSeatAt (receives_on from) port },
}

impl<T: Drop, K, P: Fits<T, K>> QueueSender<T, K, P> {
    ghost use Rattle.std.specs.Prelude.{◌≡◌, IfOk, IfErr, IfSome};
    ghost use Rattle.keyed.specs.Bindings.{FitsBinding, IsBound};
    ghost use Rattle.keyed.specs.Queues.{sends_to, receives_as};

    /// Another sending end of the same queue.
    ///
    /// # Errors
    ///
    /// Want of memory.
    pub fn another(&mut self) -> Result<QueueSender<T, K, P>, AllocError>
        requires { IsBound (sends_to self.old) }
        ensures same { sends_to self.new ≡ sends_to self.old }
        ensures other { IfOk result (λ other. sends_to other ≡ sends_to self.old) }
    {
        let to = self.to.try_clone()?;
        let port = self.to.another::<Same>(&mut self.port);
        Ok(QueueSender { to, port })
    }

    /// Waits until there is room, and sends a message.
    ///
    /// # Errors
    ///
    /// The message, where the other end is gone.
    pub fn send<R: Wait>(&mut self, rt: &R, message: T) -> Result<(), T>
        requires { FitsBinding P.fits (sends_to self.old) message }
        ensures same { sends_to self.new ≡ sends_to self.old }
        ensures back { IfErr result (λ back. back ≡ message) }
    {
        match self.to.send_as::<Sends, R>(rt, &mut self.port, message) {
            Ok(()) => Ok(()),
            Err(refused) => Err(refused.into_inner()),
        }
    }
}

impl<T: Drop, K, P: Fits<T, K>> QueueReceiver<T, K, P> {
    ghost use Rattle.std.specs.Prelude.{◌≡◌, ◌∷◌, IfOk, IfSome, MatchOption, MatchResult};
    ghost use Rattle.keyed.specs.Bindings.{FitsBinding};
    ghost use Rattle.keyed.specs.Queues.{receives_as, received_by};

    /// Waits for a message.
    ///
    /// # Errors
    ///
    /// All sending ends are gone, and no message is left.
    pub fn receive<R: Wait>(&mut self, rt: &R) -> Result<T, Gone>
        ensures same { receives_as self.new ≡ receives_as self.old }
        ensures fits { IfOk result (FitsBinding P.fits (receives_as self.old)) }
        ensures received { MatchResult result
            (λ message. received_by self.new ≡ message ∷ received_by self.old)
            (λ _. received_by self.new ≡ received_by self.old) }
    {
        match self.from.recv_as::<Gets<P>, R>(rt, &mut self.port) {
            Ok(message) => Ok(message),
            Err(_) => Err(Gone { found: () }),
        }
    }

    /// The next message, if one is there.
    pub fn try_receive<R: Wait>(&mut self, rt: &R) -> Option<T>
        ensures same { receives_as self.new ≡ receives_as self.old }
        ensures fits { IfSome result (FitsBinding P.fits (receives_as self.old)) }
        ensures received { MatchOption result (received_by self.new ≡ received_by self.old)
            (λ message. received_by self.new ≡ message ∷ received_by self.old) }
    {
        self.from.try_recv_as::<Gets<P>, R>(rt, &mut self.port).ok()
    }

    /// Looks for a message up to `times` times, and lets other threads run in between.
    pub fn look<R: Wait>(&mut self, rt: &R, times: u32) -> Option<T>
        ensures same { receives_as self.new ≡ receives_as self.old }
        ensures fits { IfSome result (FitsBinding P.fits (receives_as self.old)) }
    {
        for _ in 0..times {
            if let Some(message) = self.try_receive(rt) {
                return Some(message);
            }
            thread::yield_now();
        }
        None
    }
}
