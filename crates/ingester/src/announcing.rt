//! How calls of a pass are announced together, as far as can be.
ghost use Rattle.std.specs.Prelude.{◌≡◌, ◌+◌, ◌^◌, ◌<◌, ◌≤◌, [], None, true, All, length, IfSome, MatchOption};
ghost use Rattle.std.specs.VecDeque.{deque_len, deque_capacity};
ghost use Rattle.accept.specs.Calls.{AreNumbers};
ghost use Rattle.history.specs.Histories.{max_open};
ghost use Rattle.ingester.specs.Calls.{IsPassOf};
ghost use Rattle.owners.specs.Routes.{HasSameRest};
ghost use Rattle.ingester.specs.Batches.{HasMessages, HasIdleRoutes, IsPutIntoMessage, IsNextOpen, HasBegunRound};

use crate::calls::shard_number;
use crate::opened::Ingester;
use accept::Call;
use disk::Disk;
use history::Pass as Seat;
use owners::ShardRoute;
use shard::Job;
use std::collections::VecDeque;

// Calls of a pass that are announced, and lie in the messages to their shards.
#[derive(Drop)]
pub(crate) struct Round {
    // The number of the pass.
    pub(crate) pass: usize,
    // The number of the first call, and how many they are.
    pub(crate) first: u64,
    pub(crate) count: usize,
    // The shard of each, in their order.
    pub(crate) shards: [usize; Seat::MAX_OPEN],
}

impl<D: Disk + Drop> Ingester<D> {
    // Announces the first of the calls, and puts it into the message of a route, if both can be. Says its number.
    fn join(
        &self,
        pass: &mut Seat,
        calls: &mut VecDeque<Call>,
        route: &mut ShardRoute,
    ) -> Option<u64>
        requires table { pass.old.table ≡ self.now.table }
        requires few { length pass.old.caller.pending + deque_len calls.old ≤ max_open }
        requires numbers { All AreNumbers calls.old.items }
        ensures joined { IfSome result
            (λ number. IsPutIntoMessage self.now.table pass.old pass.new calls.old.items
            calls.new.items route.old.message.jobs.items route.new.message.jobs.items number) }
        ensures fits { IfSome result (λ number. number < 2 ^ 64) }
        ensures not { MatchOption result ((pass.new ≡ pass.old) × (calls.new ≡ calls.old)
            × (route.new.message.jobs.items ≡ route.old.message.jobs.items))
            (λ _. deque_len calls.new + 1 ≡ deque_len calls.old) }
        ensures capacity { deque_capacity calls.new ≡ deque_capacity calls.old }
        ensures rest { HasSameRest route.old route.new }
    {
        let call = calls.front()?;
        if !route.message.make_room() {
            return None;
        }
        let Ok(ticket) = self.history.announce(pass, call) else {
            return None;
        };
        let Some(call) = calls.pop_front() else {
            unreachable!()
        };
        let number = ticket.number();
        route.message.jobs.push_back_reserved(Job { ticket, call });
        Some(number)
    }

    // Announces the first of the calls, and puts it into the message to its shard, if both can be. Says its number and
    // its shard.
    fn announce_next(
        &self,
        pass: &mut Seat,
        calls: &mut VecDeque<Call>,
        routes: &mut Vec<ShardRoute>,
    ) -> Option<(u64, usize)>
        requires pass { (pass.old.table ≡ self.now.table)
            × (pass.old.caller.about ≡ self.now.about) }
        requires few { length pass.old.caller.pending + deque_len calls.old ≤ max_open }
        requires numbers { All AreNumbers calls.old.items }
        requires messages { HasMessages self.now pass.old.caller.pass pass.old.caller
            routes.old.items }
        ensures next { IfSome result (λ they.
            IsNextOpen pass.old pass.new calls.old.items calls.new.items they.0
            × (they.0 < 2 ^ 64) × (they.1 < self.now.about.shards)) }
        ensures not { MatchOption result ((pass.new ≡ pass.old) × (calls.new ≡ calls.old))
            (λ _. deque_len calls.new + 1 ≡ deque_len calls.old) }
        ensures capacity { deque_capacity calls.new ≡ deque_capacity calls.old }
        ensures messages { HasMessages self.now pass.old.caller.pass pass.new.caller
            routes.new.items }
    {
        let shard = shard_number(calls.front()?, self.count);
        let number = self.join(pass, calls, &mut routes[shard])?;
        Some((number, shard))
    }

    // Announces the calls up to the first that cannot be, and puts them into the messages to their shards. Says nothing
    // where none could.
    fn announce_all(
        &self,
        pass: &mut Seat,
        calls: &mut VecDeque<Call>,
        routes: &mut Vec<ShardRoute>,
    ) -> Option<Round>
        requires pass { IsPassOf self.now pass.old }
        requires idle { pass.old.caller.pending ≡ [] }
        requires few { deque_len calls.old ≤ max_open }
        requires numbers { All AreNumbers calls.old.items }
        requires routes { HasIdleRoutes self.now pass.old.caller.pass routes.old.items }
        ensures round { IfSome result (λ round.
            HasBegunRound self.now pass.old pass.new calls.old.items calls.new.items round) }
        ensures messages { HasMessages self.now pass.old.caller.pass pass.new.caller
            routes.new.items }
        ensures count { MatchOption result ((pass.new ≡ pass.old) × (calls.new ≡ calls.old))
            (λ round. deque_len calls.new + round.count ≡ deque_len calls.old) }
        ensures capacity { deque_capacity calls.new ≡ deque_capacity calls.old }
    {
        let own = pass.number();
        let (first, shard) = self.announce_next(pass, calls, routes)?;
        let mut shards = [shard; Seat::MAX_OPEN];
        let mut count = 1;
        while let Some((_, shard)) = self.announce_next(pass, calls, routes) {
            shards[count] = shard;
            count += 1;
        }
        Some(Round {
            pass: own,
            first,
            count,
            shards,
        })
    }

    // Announces calls of a pass that isn't closed, up to the first that cannot be. Says nothing where none could, or
    // where a call before them was refused.
    pub(crate) fn announce_some(
        &self,
        pass: &mut Seat,
        calls: &mut VecDeque<Call>,
        routes: &mut Vec<ShardRoute>,
        was_refused: bool,
    ) -> Option<Round>
        requires pass { IsPassOf self.now pass.old }
        requires few { deque_len calls.old ≤ max_open }
        requires numbers { All AreNumbers calls.old.items }
        requires routes { HasIdleRoutes self.now pass.old.caller.pass routes.old.items }
        ensures round { IfSome result (λ round.
            HasBegunRound self.now pass.old pass.new calls.old.items calls.new.items round) }
        ensures routes { MatchOption result
            (HasIdleRoutes self.now pass.old.caller.pass routes.new.items)
            (λ _. HasMessages self.now pass.old.caller.pass pass.new.caller routes.new.items) }
        ensures count { MatchOption result ((pass.new ≡ pass.old) × (calls.new ≡ calls.old))
            (λ round. deque_len calls.new + round.count ≡ deque_len calls.old) }
        ensures none_after { was_refused ≡ true → result ≡ None }
        ensures capacity { deque_capacity calls.new ≡ deque_capacity calls.old }
    {
        if was_refused || pass.is_closed() {
            return None;
        }
        self.announce_all(pass, calls, routes)
    }
}
