//! What comes of the open calls of one shard, whatever is open on the others.
ghost use Rattle.std.specs.Prelude.{◌≡◌, ◌+◌, ◌≤◌, None, length, drop, IfSome};
ghost use Rattle.std.specs.VecDeque.{deque_len, deque_capacity};
ghost use Rattle.history.specs.Plays.{IsNextOn};
ghost use Rattle.owners.specs.Calls.{IsDue, number_of_settled};
ghost use Rattle.owners.specs.Openings.{home_of};
ghost use Rattle.owners.specs.Routes.{IsRoute};
ghost use Rattle.ingester.specs.Collected.{HasOpenThere, IsTakenOn, AreReceivedOn};

use crate::fault::fault_of;
use crate::opened::Ingester;
use accept::{CallFault, Reply};
use disk::Disk;
use history::Pass as Seat;
use owners::ShardRoute;
use shard::Settled;
use std::collections::VecDeque;

impl<D: Disk + Drop> Ingester<D> {
    // Takes in what became of the first open call of a pass on a shard.
    fn take_in_there(
        &self,
        pass: &mut Seat,
        shard: usize,
        settled: Settled,
    ) -> Result<Reply, CallFault>
        requires table { pass.old.table ≡ self.now.table }
        requires due { IsDue (home_of self.now) pass.old.caller.pass settled }
        requires next { IsNextOn pass.old.caller (number_of_settled settled) shard }
        ensures taken { IsTakenOn shard pass.old pass.new result }
    {
        let _ = shard;
        match settled {
            Settled::Answered(reply, receipt) => {
                self.history.collect_there(pass, receipt);
                Ok(reply)
            }
            Settled::GivenBack(fault, ticket) => {
                self.history.withdraw_there(pass, ticket);
                Err(fault_of(fault))
            }
        }
    }

    // Takes in what became of the first open call of a pass on a shard, which has this number, where that is next in
    // the message.
    fn receive_there(
        &self,
        pass: &mut Seat,
        route: &mut ShardRoute,
        shard: usize,
        number: u64,
    ) -> Option<Result<Reply, CallFault>>
        requires table { pass.old.table ≡ self.now.table }
        requires route { IsRoute (home_of self.now) pass.old.caller.pass shard route.old }
        requires next { IsNextOn pass.old.caller number shard }
        ensures taken { IfSome result (IsTakenOn shard pass.old pass.new) }
        ensures none { result ≡ None → pass.new ≡ pass.old }
        ensures route { IsRoute (home_of self.now) pass.old.caller.pass shard route.new }
    {
        let settled = route.take(number)?;
        Some(self.take_in_there(pass, shard, settled))
    }

    // Takes in what became of the open calls of a pass on a shard, which have these numbers, up to the first whose
    // answer is lost. Says of how many. What is open on other shards stays open.
    pub(crate) fn receive_shard(
        &self,
        pass: &mut Seat,
        route: &mut ShardRoute,
        shard: usize,
        numbers: &[u64],
        outcomes: &mut VecDeque<Result<Reply, CallFault>>,
    ) -> usize
        requires table { pass.old.table ≡ self.now.table }
        requires route { IsRoute (home_of self.now) pass.old.caller.pass shard route.old }
        requires open { HasOpenThere pass.old.caller shard numbers.now }
        requires room { deque_len outcomes.old + length numbers.now ≤ deque_capacity outcomes.old }
        ensures received { AreReceivedOn shard pass.old pass.new outcomes.old.items
            outcomes.new.items result }
        ensures table { pass.new.table ≡ self.now.table }
        ensures open { HasOpenThere pass.new.caller shard (drop result numbers.now) }
        ensures route { IsRoute (home_of self.now) pass.old.caller.pass shard route.new }
        ensures len { deque_len outcomes.new ≡ deque_len outcomes.old + result }
        ensures capacity { deque_capacity outcomes.new ≡ deque_capacity outcomes.old }
    {
        for i in 0..numbers.len() {
            match self.receive_there(pass, route, shard, numbers[i]) {
                Some(came) => outcomes.push_back_reserved(came),
                None => return i,
            }
        }
        numbers.len()
    }
}
