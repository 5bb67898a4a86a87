//! Many calls of a pass at once.
ghost use Rattle.std.specs.Prelude.{◌≡◌, ◌+◌, ◌<◌, ◌≤◌, ℕ, [], None, Err, All, length, IfSome};
ghost use Rattle.std.specs.VecDeque.{deque_len, deque_capacity};
ghost use Rattle.accept.specs.Calls.{AreNumbers};
ghost use Rattle.history.specs.Plays.{IsRested};
ghost use Rattle.history.specs.Histories.{IsFirstNumber, max_open};
ghost use Rattle.owners.specs.Calls.{IsDue, number_of_settled};
ghost use Rattle.owners.specs.Openings.{home_of};
ghost use Rattle.owners.specs.Routes.{IsRoute, AreRoutes};
ghost use Rattle.ingester.specs.Calls.{IsPassOf, IsGiven, AreGiven};
ghost use Rattle.ingester.specs.Batches.{HasMessages, HasIdleRoutes, IsUnderWay, IsTaken, IsTakenBack, AreReceived, AreLost, AreEnded, IsNextRefused};
ghost use Rattle.ingester.specs.Settling.{told_of};

use crate::announcing::Round;
use crate::fault::fault_of;
use crate::opened::Ingester;
use crate::passes::Pass;
use accept::{Call, CallFault, Reply};
use disk::Disk;
use history::Pass as Seat;
use owners::{ShardRoute, clear_messages, receive_messages, send_messages};
use shard::Settled;
use std::alloc::Global;
use std::collections::VecDeque;
use std::sync::Wait;

impl<D: Disk + Drop> Ingester<D> {
    // Takes in what became of the first open call of a pass, which has this number, where that is next in the message.
    pub(crate) fn receive_next(
        &self,
        pass: &mut Seat,
        route: &mut ShardRoute,
        number: u64,
    ) -> Option<Result<Reply, CallFault>>
        requires table { pass.old.table ≡ self.now.table }
        requires about { pass.old.caller.about ≡ self.now.about }
        requires route { (k : ℕ) × IsRoute (home_of self.now) pass.old.caller.pass k route.old }
        requires number { IsFirstNumber number pass.old.caller.pending }
        requires rested { IsRested pass.old.caller }
        ensures taken { IfSome result (IsTaken pass.old pass.new) }
        ensures none { result ≡ None → pass.new ≡ pass.old }
        ensures route { (k : ℕ) → IsRoute (home_of self.now) pass.old.caller.pass k route.old
            → IsRoute (home_of self.now) pass.old.caller.pass k route.new }
    {
        let settled = route.take(number)?;
        Some(self.take_in(pass, settled))
    }

    // Takes in what became of the first open call of a pass.
    fn take_in(&self, pass: &mut Seat, settled: Settled) -> Result<Reply, CallFault>
        requires table { pass.old.table ≡ self.now.table }
        requires about { pass.old.caller.about ≡ self.now.about }
        requires due { IsDue (home_of self.now) pass.old.caller.pass settled }
        requires number { IsFirstNumber (number_of_settled settled) pass.old.caller.pending }
        requires rested { IsRested pass.old.caller }
        ensures taken { IsTaken pass.old pass.new result }
        ensures told { result ≡ told_of settled }
    {
        match settled {
            Settled::Answered(reply, receipt) => {
                self.history.collect(pass, receipt);
                Ok(reply)
            }
            Settled::GivenBack(fault, ticket) => {
                self.history.withdraw(pass, ticket);
                Err(fault_of(fault))
            }
        }
    }

    // Takes in what became of the open calls of a pass, up to the first whose answer is lost. Says of how many.
    fn receive_all(
        &self,
        pass: &mut Seat,
        routes: &mut Vec<ShardRoute>,
        round: &Round,
        outcomes: &mut VecDeque<Result<Reply, CallFault>>,
    ) -> usize
        requires round { IsUnderWay self.now pass.old round.now 0 }
        requires routes { AreRoutes (home_of self.now) round.now.pass routes.old.items
            × (length routes.old.items ≡ self.now.about.shards) }
        requires room { deque_len outcomes.old + round.now.count ≤ deque_capacity outcomes.old }
        ensures received { AreReceived pass.old pass.new outcomes.old.items
            outcomes.new.items result }
        ensures round { IsUnderWay self.now pass.new round.now result }
        ensures routes { AreRoutes (home_of self.now) round.now.pass routes.new.items
            × (length routes.new.items ≡ self.now.about.shards) }
        ensures len { deque_len outcomes.new ≡ deque_len outcomes.old + result }
        ensures capacity { deque_capacity outcomes.new ≡ deque_capacity outcomes.old }
    {
        for i in 0..round.count {
            let shard = round.shards[i];
            match self.receive_next(pass, &mut routes[shard], round.first + i as u64) {
                Some(came) => outcomes.push_back_reserved(came),
                None => return i,
            }
        }
        round.count
    }

    // Takes back the first open call of a pass, which has this number, where it was not sent.
    pub(crate) fn take_back(&self, pass: &mut Seat, route: &mut ShardRoute, number: u64)
        requires table { pass.old.table ≡ self.now.table }
        requires about { pass.old.caller.about ≡ self.now.about }
        requires route { (k : ℕ) × IsRoute (home_of self.now) pass.old.caller.pass k route.old }
        requires number { IsFirstNumber number pass.old.caller.pending }
        ensures back { IsTakenBack pass.old pass.new }
        ensures route { (k : ℕ) → IsRoute (home_of self.now) pass.old.caller.pass k route.old
            → IsRoute (home_of self.now) pass.old.caller.pass k route.new }
    {
        let Some(ticket) = route.take_back() else {
            return;
        };
        if ticket.number() == number {
            self.history.withdraw(pass, ticket);
        }
    }

    // The open calls of a pass from this one of a round on are lost: the pass is closed, and they are in doubt.
    fn lose(
        &self,
        pass: &mut Seat,
        routes: &mut Vec<ShardRoute>,
        round: &Round,
        from: usize,
        outcomes: &mut VecDeque<Result<Reply, CallFault>>,
    )
        requires round { IsUnderWay self.now pass.old round.now from }
        requires some { from < round.now.count }
        requires routes { AreRoutes (home_of self.now) round.now.pass routes.old.items
            × (length routes.old.items ≡ self.now.about.shards) }
        requires room { deque_len outcomes.old + round.now.count
            ≤ deque_capacity outcomes.old + from }
        ensures lost { AreLost pass.old pass.new outcomes.old.items outcomes.new.items from
            round.now.count }
        ensures routes { AreRoutes (home_of self.now) round.now.pass routes.new.items
            × (length routes.new.items ≡ self.now.about.shards) }
        ensures len { deque_len outcomes.new + from ≡ deque_len outcomes.old + round.now.count }
        ensures capacity { deque_capacity outcomes.new ≡ deque_capacity outcomes.old }
    {
        let shard = round.shards[from];
        self.take_back(pass, &mut routes[shard], round.first + from as u64);
        pass.close();
        for _ in from..round.count {
            outcomes.push_back_reserved(Err(CallFault::InDoubt));
        }
    }

    // Sends the messages with announced calls, and waits for what became of them.
    fn make_round<R: Wait>(
        &self,
        rt: &R,
        alloc: Global,
        pass: &mut Seat,
        routes: &mut Vec<ShardRoute>,
        round: Round,
        outcomes: &mut VecDeque<Result<Reply, CallFault>>,
    )
        requires round { IsUnderWay self.now pass.old round 0 }
        requires messages { HasMessages self.now round.pass pass.old.caller routes.old.items }
        requires room { deque_len outcomes.old + round.count ≤ deque_capacity outcomes.old }
        ensures ended { AreEnded pass.old pass.new outcomes.old.items outcomes.new.items
            round.count }
        ensures routes { HasIdleRoutes self.now round.pass routes.new.items }
        ensures len { deque_len outcomes.new ≡ deque_len outcomes.old + round.count }
        ensures capacity { deque_capacity outcomes.new ≡ deque_capacity outcomes.old }
    {
        send_messages(rt, alloc, routes);
        receive_messages(rt, routes, &self.waiters);
        let received = self.receive_all(pass, routes, &round, outcomes);
        if received < round.count {
            self.lose(pass, routes, &round, received, outcomes);
        }
        clear_messages(routes);
    }

    // Refuses a call of a pass: for want of memory, or since the pass is closed.
    pub(crate) fn refuse(&self, pass: &mut Seat, call: &Call) -> CallFault
        requires pass { IsPassOf self.now pass.old }
        ensures given { IsGiven pass.old call.now (Err result) pass.new }
        ensures pass { IsPassOf self.now pass.new }
    {
        if pass.is_closed() {
            return CallFault::PassClosed;
        }
        match self.history.announce(pass, call) {
            Ok(ticket) => {
                self.history.withdraw(pass, ticket);
                CallFault::Memory
            }
            Err(_) => CallFault::PassClosed,
        }
    }

    // Refuses the first of the calls.
    fn refuse_next(&self, pass: &mut Seat, calls: &mut VecDeque<Call>) -> CallFault
        requires pass { IsPassOf self.now pass.old }
        requires some { 0 < deque_len calls.old }
        ensures refused { IsNextRefused self.now pass.old pass.new calls.old.items calls.new.items
            result }
        ensures len { deque_len calls.new + 1 ≡ deque_len calls.old }
        ensures capacity { deque_capacity calls.new ≡ deque_capacity calls.old }
    {
        let Some(call) = calls.pop_front() else {
            unreachable!()
        };
        self.refuse(pass, &call)
    }

    // Makes calls of a pass by its routes to the owners.
    fn call_by<R: Wait>(
        &self,
        rt: &R,
        alloc: Global,
        pass: &mut Seat,
        routes: &mut Vec<ShardRoute>,
        calls: &mut VecDeque<Call>,
        outcomes: &mut VecDeque<Result<Reply, CallFault>>,
    )
        requires pass { IsPassOf self.now pass.old }
        requires routes { HasIdleRoutes self.now pass.old.caller.pass routes.old.items }
        requires calls { (deque_len calls.old ≤ max_open) × All AreNumbers calls.old.items }
        requires outcomes { (outcomes.old.items ≡ [])
            × (deque_len calls.old ≤ deque_capacity outcomes.old) }
        ensures pass { IsPassOf self.now pass.new }
        ensures own { pass.new.caller.pass ≡ pass.old.caller.pass }
        ensures routes { HasIdleRoutes self.now pass.old.caller.pass routes.new.items }
        ensures given { AreGiven pass.old calls.old.items outcomes.new.items pass.new }
        ensures taken { (calls.new.items ≡ []) × (deque_len calls.new ≡ 0)
            × (deque_capacity calls.new ≡ deque_capacity calls.old) }
        ensures outcomes { (deque_len outcomes.new ≡ deque_len calls.old)
            × (deque_capacity outcomes.new ≡ deque_capacity outcomes.old) }
    {
        let mut was_refused = false;
        while !calls.is_empty() {
            match self.announce_some(pass, calls, routes, was_refused) {
                Some(round) => self.make_round(rt, alloc, pass, routes, round, outcomes),
                None => {
                    was_refused = true;
                    let fault = self.refuse_next(pass, calls);
                    outcomes.push_back_reserved(Err(fault));
                }
            }
        }
    }

    /// Makes up to 64 calls of a pass, as if by `call` one after another in their order: of each comes what would come
    /// then. All are sent before the first answer is waited for, and those to one shard are written together. The calls
    /// are taken out of `calls`, and what came of each is put into `outcomes`, which has room for them.
    ///
    /// If a call is refused for want of memory, or since the log is spent, later ones at its shard are refused for want
    /// of memory. If one could not even be announced, all later ones are. If an owner has ended, a call that was sent
    /// to it is in doubt, and so is each that was announced after it; the pass is closed.
    pub fn call_all<R: Wait>(
        &self,
        rt: &R,
        alloc: Global,
        pass: &mut Pass,
        calls: &mut VecDeque<Call>,
        outcomes: &mut VecDeque<Result<Reply, CallFault>>,
    )
        requires pass { IsPassOf self.now pass.old }
        requires few { deque_len calls.old ≤ max_open }
        requires numbers { All AreNumbers calls.old.items }
        requires empty { outcomes.old.items ≡ [] }
        requires room { deque_len calls.old ≤ deque_capacity outcomes.old }
        ensures pass { IsPassOf self.now pass.new }
        ensures given { AreGiven pass.old calls.old.items outcomes.new.items pass.new }
        ensures taken { calls.new.items ≡ [] }
        ensures lens { (deque_len calls.new ≡ 0) × (deque_len outcomes.new ≡ deque_len calls.old) }
        ensures capacities { (deque_capacity calls.new ≡ deque_capacity calls.old)
            × (deque_capacity outcomes.new ≡ deque_capacity outcomes.old) }
    {
        self.call_by(rt, alloc, &mut pass.seat, &mut pass.routes, calls, outcomes);
    }
}
