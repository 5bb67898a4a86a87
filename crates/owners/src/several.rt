//! Several calls of a pass at once: those to one shard go in one message, and what became of each is taken out of it.
ghost use Rattle.std.specs.Prelude.{◌≡◌, ℕ, IfSome, vec_len};
ghost use Rattle.keyed.specs.Queues.{sends_to};
ghost use Rattle.keyed.specs.declared.binding.Binding.TheVariants.{Bound};
ghost use Rattle.owners.specs.Homes.{Homed};
ghost use Rattle.owners.specs.Calls.{IsSureTicket, IsDue, number_of_settled};
ghost use Rattle.owners.specs.Routes.{IsRoute, IsLoaded, IsIdleRoute, AreRoutes, AreLoaded, AreIdleRoutes};

use crate::messages::{LastOrder, Order};
use crate::routes::{ShardRoute, blank};
use accept::Reply;
use history::Ticket;
use keyed::Waiters;
use shard::{Job, Settled};
use std::alloc::Global;
use std::mem;
use std::sync::Wait;
use std::sync::atomic::Ordering;

// The number of the call.
fn number_of(settled: &Settled) -> u64
    ensures { result ≡ number_of_settled settled.now }
{
    match settled {
        Settled::Answered(_, receipt) => receipt.number(),
        Settled::GivenBack(_, ticket) => ticket.number(),
    }
}

impl ShardRoute {
    // Sends the message. Where the owner has ended it stays here, with its calls.
    fn send<R: Wait>(&mut self, rt: &R, alloc: Global)
        requires { (home : Homed) × (k : ℕ) × IsLoaded home self.old.message.pass k self.old }
        ensures { (home : Homed) (p k : ℕ) → IsLoaded home p k self.old → IsRoute home p k self.new }
    {
        let pass = self.message.pass;
        let message = mem::replace(&mut self.message, blank(alloc, pass));
        match self.orders.send(rt, Order::Make(message)) {
            Ok(()) => self.is_out = true,
            Err(Order::Make(message)) => self.message = message,
            Err(Order::End(_)) => unreachable!(),
        }
    }

    // Waits for the message that is out. None comes where the owner has ended.
    fn receive<R: Wait>(&mut self, rt: &R, waiters: &Waiters)
        ensures { (home : Homed) (p k : ℕ) → IsRoute home p k self.old → IsRoute home p k self.new }
    {
        self.is_out = false;
        if let Some(message) = waiters.receive(rt, &mut self.answers) {
            self.message = message;
        }
    }

    /// Sends the message, and waits for what becomes of its calls.
    pub fn exchange<R: Wait>(&mut self, rt: &R, alloc: Global, waiters: &Waiters)
        requires { (home : Homed) × (k : ℕ) × IsLoaded home self.old.message.pass k self.old }
        ensures { (home : Homed) (p k : ℕ) → IsLoaded home p k self.old → IsRoute home p k self.new }
    {
        self.send(rt, alloc);
        if self.is_out {
            self.receive(rt, waiters);
        }
    }

    /// Takes out what became of the call of this number, if it is the next in the message that came back.
    pub fn take(&mut self, number: u64) -> Option<Settled>
        ensures route { (home : Homed) (p k : ℕ) → IsRoute home p k self.old → IsRoute home p k self.new }
        ensures due { (home : Homed) (p k : ℕ) → IsRoute home p k self.old
            → IfSome result (IsDue home p) }
        ensures number { IfSome result (λ settled. number_of_settled settled ≡ number) }
    {
        let next = self.message.settled.front()?;
        if number_of(next) != number {
            return None;
        }
        let settled = self.message.settled.pop_front()?;
        if let Settled::Answered(Reply::NoRoom, _) = &settled {
            self.is_full.store(true, Ordering::Relaxed);
        }
        Some(settled)
    }

    /// Drops what is left in the message.
    pub fn clear(&mut self)
        ensures { (home : Homed) (p k : ℕ) → IsRoute home p k self.old → IsIdleRoute home p k self.new }
    {
        self.message.jobs.clear();
        self.message.settled.clear();
    }

    // Sends the owner the last order.
    fn end<R: Wait>(&mut self, rt: &R)
        requires { (home : Homed) × (k : ℕ) × (sends_to self.old.orders ≡ Bound home k) }
        ensures { (home : Homed) (p k : ℕ) → IsIdleRoute home p k self.old
            → IsIdleRoute home p k self.new }
    {
        let _gone = self.orders.send(rt, Order::End(LastOrder::new()));
    }

    /// Of a message that could not be sent, takes out the ticket of the first call, and drops the other calls.
    pub fn take_back(&mut self) -> Option<Ticket>
        ensures route { (home : Homed) (p k : ℕ) → IsRoute home p k self.old → IsRoute home p k self.new }
        ensures ticket { (home : Homed) (p k : ℕ) → IsRoute home p k self.old
            → IfSome result (λ ticket. IsSureTicket home.table ticket
            × (ticket.ask.pass ≡ p)) }
    {
        let Job { ticket, call: _ } = self.message.jobs.pop_front()?;
        self.message.jobs.clear();
        Some(ticket)
    }
}

/// Sends each message that has calls to the owner of its shard.
pub fn send_messages<R: Wait>(rt: &R, alloc: Global, routes: &mut Vec<ShardRoute>)
    requires { (home : Homed) × (p : ℕ) × AreLoaded home p routes.old.items }
    ensures routes { (home : Homed) (p : ℕ) → AreLoaded home p routes.old.items
        → AreRoutes home p routes.new.items }
    ensures len { vec_len routes.new ≡ vec_len routes.old }
{
    for shard in 0..routes.len() {
        if !routes[shard].message.jobs.is_empty() {
            routes[shard].send(rt, alloc);
        }
    }
}

/// Waits for each message that was sent.
pub fn receive_messages<R: Wait>(rt: &R, routes: &mut Vec<ShardRoute>, waiters: &Waiters)
    ensures routes { (home : Homed) (p : ℕ) → AreRoutes home p routes.old.items
        → AreRoutes home p routes.new.items }
    ensures len { vec_len routes.new ≡ vec_len routes.old }
{
    for shard in 0..routes.len() {
        if routes[shard].is_out {
            routes[shard].receive(rt, waiters);
        }
    }
}

/// Drops what is left in the messages.
pub fn clear_messages(routes: &mut Vec<ShardRoute>)
    ensures routes { (home : Homed) (p : ℕ) → AreRoutes home p routes.old.items
        → AreIdleRoutes home p routes.new.items }
    ensures len { vec_len routes.new ≡ vec_len routes.old }
{
    for shard in 0..routes.len() {
        routes[shard].clear();
    }
}

/// A shard at which a call by these routes has found no room since that was asked last.
pub fn next_full(routes: &[ShardRoute]) -> Option<usize> {
    for (shard, route) in routes.iter().enumerate() {
        if route.is_full.swap(false, Ordering::Relaxed) {
            return Some(shard);
        }
    }
    None
}

/// Sends each owner the last order: it ends once it has answered all that came before. Where it has ended, nothing
/// happens.
pub fn end_owners<R: Wait>(rt: &R, routes: &mut Vec<ShardRoute>)
    requires { (home : Homed) × (p : ℕ) × AreIdleRoutes home p routes.old.items }
    ensures routes { (home : Homed) (p : ℕ) → AreIdleRoutes home p routes.old.items
        → AreIdleRoutes home p routes.new.items }
    ensures len { vec_len routes.new ≡ vec_len routes.old }
{
    for shard in 0..routes.len() {
        routes[shard].end(rt);
    }
}
