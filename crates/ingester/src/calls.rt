//! Calls, looks and meetings.
ghost use Rattle.std.specs.Prelude.{◌≡◌, ◌≢◌, ◌↔◌, ◌<◌, ◌≤◌, ℕ, [], true, false, length, IfOk, IfErr};
ghost use Rattle.std.specs.Result.{IsErrOf};
ghost use Rattle.labels.specs.Shards.{shard, max_shards};
ghost use Rattle.accept.specs.Calls.{AreNumbers};
ghost use Rattle.accept.specs.Histories.{key_of};
ghost use Rattle.history.specs.Histories.{IsBeginning, IsLegalAt, IsByPasses, IsFirstNumber};
ghost use Rattle.history.specs.Plays.{seen_at, look_to, HasStepsOf, IsRested};
ghost use Rattle.history.specs.Handles.{is_closed_pass, with_seen, HaveMet};
ghost use Rattle.owners.specs.Openings.{home_of};
ghost use Rattle.owners.specs.Routes.{IsRoute, IsLoaded, IsIdleRoute};
ghost use Rattle.ingester.specs.Calls.{IsPassOf, IsAnswered, IsRefused, IsGiven, shard_for};
ghost use Rattle.ingester.specs.Settling.{IsSettled};
ghost use Rattle.accept.specs.declared.fault.CallFault.TheVariants as faults;

use crate::opened::Ingester;
use crate::passes::Pass;
use accept::{Call, CallFault, Reply};
use disk::Disk;
use history::Pass as Seat;
use labels::shard_of;
use owners::ShardRoute;
use shard::Job;
use std::alloc::Global;
use std::sync::Wait;

// The number of the shard that a call belongs to, among `shards`.
pub(crate) fn shard_number(call: &Call, shards: u32) -> usize
    requires some { 1 ≤ shards }
    requires few { shards ≤ max_shards }
    ensures { result ≡ shard (key_of call.now) shards }
{
    shard_of(call.key(), shards) as usize
}

impl<D: Disk + Drop> Ingester<D> {
    // Takes in what became of the only open call of a pass, which has this number. Where its answer is lost, the pass
    // is closed.
    fn settle(
        &self,
        pass: &mut Seat,
        route: &mut ShardRoute,
        number: u64,
    ) -> Result<Reply, CallFault>
        requires table { pass.old.table ≡ self.now.table }
        requires about { pass.old.caller.about ≡ self.now.about }
        requires route { (k : ℕ) × IsRoute (home_of self.now) pass.old.caller.pass k route.old }
        requires number { IsFirstNumber number pass.old.caller.pending }
        requires rested { IsRested pass.old.caller }
        ensures settled { IsSettled pass.old pass.new result }
        ensures route { (k : ℕ) → IsRoute (home_of self.now) pass.old.caller.pass k route.old
            → IsRoute (home_of self.now) pass.old.caller.pass k route.new }
    {
        match self.receive_next(pass, route, number) {
            Some(outcome) => outcome,
            None => {
                self.take_back(pass, route, number);
                pass.close();
                Err(CallFault::InDoubt)
            }
        }
    }

    // Sends the only open call of a pass, which has this number and lies in the message of the route, and waits for
    // what comes of it.
    fn make_call<R: Wait>(
        &self,
        rt: &R,
        alloc: Global,
        pass: &mut Seat,
        route: &mut ShardRoute,
        number: u64,
    ) -> Result<Reply, CallFault>
        requires table { pass.old.table ≡ self.now.table }
        requires about { pass.old.caller.about ≡ self.now.about }
        requires route { (k : ℕ) × IsLoaded (home_of self.now) pass.old.caller.pass k route.old }
        requires number { IsFirstNumber number pass.old.caller.pending }
        requires rested { IsRested pass.old.caller }
        ensures settled { IsSettled pass.old pass.new result }
        ensures route { (k : ℕ) → IsLoaded (home_of self.now) pass.old.caller.pass k route.old
            → IsIdleRoute (home_of self.now) pass.old.caller.pass k route.new }
    {
        route.exchange(rt, alloc, &self.waiters);
        let outcome = self.settle(pass, route, number);
        route.clear();
        outcome
    }

    // Makes a call of a pass that isn't closed, by its route to the call's shard.
    fn call_by_route<R: Wait>(
        &self,
        rt: &R,
        alloc: Global,
        pass: &mut Seat,
        route: &mut ShardRoute,
        call: Call,
    ) -> Result<Reply, CallFault>
        requires pass { IsPassOf self.now pass.old }
        requires open { is_closed_pass pass.old ≡ false }
        requires numbers { AreNumbers call }
        requires route { IsIdleRoute (home_of self.now) pass.old.caller.pass
            (shard_for pass.old.caller call) route.old }
        ensures given { IsGiven pass.old call result pass.new }
        ensures pass { IsPassOf self.now pass.new }
        ensures own { pass.new.caller.pass ≡ pass.old.caller.pass }
        ensures route { IsIdleRoute (home_of self.now) pass.old.caller.pass
            (shard_for pass.old.caller call) route.new }
    {
        if !route.message.make_room() {
            return Err(self.refuse(pass, &call));
        }
        let Ok(ticket) = self.history.announce(pass, &call) else {
            unreachable!()
        };
        let number = ticket.number();
        route.message.jobs.push_back_reserved(Job { ticket, call });
        self.make_call(rt, alloc, pass, route, number)
    }

    /// Makes a call. It waits for the owner of its key's shard alone, which writes the calls that have come to it
    /// together at once. It is `call_all` of one call, without lists.
    ///
    /// # Errors
    ///
    /// `Memory`; `PassClosed` exactly for a pass that is closed; `LogSpent`, for a call that writes and a log that has
    /// used its last generation. Then the call has no step. `InDoubt`: the owner has
    /// ended, the call may have its step or not, and the pass is closed.
    pub fn call<R: Wait>(
        &self,
        rt: &R,
        alloc: Global,
        pass: &mut Pass,
        call: Call,
    ) -> Result<Reply, CallFault>
        requires pass { IsPassOf self.now pass.old }
        requires numbers { AreNumbers call }
        ensures pass { IsPassOf self.now pass.new }
        ensures answered { IfOk result (λ reply. IsAnswered pass.old pass.new call reply) }
        ensures refused { IfErr result (λ fault. IsRefused pass.old call pass.new fault) }
        ensures closed { IsErrOf result faults.PassClosed ↔ (is_closed_pass pass.old ≡ true) }
    {
        if pass.is_closed() {
            return Err(CallFault::PassClosed);
        }
        let shard = shard_number(&call, self.count);
        self.call_by_route(rt, alloc, &mut pass.seat, &mut pass.routes[shard], call)
    }

    /// How many shards there are.
    pub fn shards(&self) -> u32
        ensures { result ≡ self.now.about.shards }
    {
        self.count
    }

    /// Sees the history of a shard as it is, and answers its length, a failure mark included. It waits for no lock.
    pub fn look(&self, pass: &mut Pass, shard: u32) -> u64
        requires pass { IsPassOf self.now pass.old }
        requires shard { shard < self.now.about.shards }
        ensures pass { IsPassOf self.now pass.new
            × (pass.new ≡ record pass.old {
              caller = look_to pass.old.caller shard
                  (seen_at pass.new.caller shard);
            }) }
        ensures others { (k : ℕ) → k ≢ shard
            → seen_at pass.new.caller k ≡ seen_at pass.old.caller k }
        ensures begins { IsBeginning (seen_at pass.old.caller shard)
            (seen_at pass.new.caller shard) }
        ensures legal { IsLegalAt pass.old.caller.about shard (seen_at pass.new.caller shard) }
        ensures length { result ≡ length (seen_at pass.new.caller shard) }
        ensures by_passes { IsByPasses pass.old.caller.about.passes
            (seen_at pass.new.caller shard) }
        ensures steps { HasStepsOf pass.old.caller shard (seen_at pass.new.caller shard) }
    {
        self.history.observe(&mut pass.seat, shard as usize)
    }

    /// Two passes see the histories of all shards together: both then hold one and the same history of each. It waits
    /// for no lock.
    pub fn meet(&self, one: &mut Pass, two: &mut Pass)
        requires one { IsPassOf self.now one.old }
        requires two { IsPassOf self.now two.old }
        ensures one { IsPassOf self.now one.new
            × (one.new ≡ record one.old { caller = with_seen one.old.caller one.new.caller.seen }) }
        ensures two { IsPassOf self.now two.new
            × (two.new ≡ record two.old { caller = with_seen two.old.caller two.new.caller.seen }) }
        ensures met { HaveMet one.old.caller two.old.caller self.now.about.shards
            one.new.caller.seen
            two.new.caller.seen }
    {
        self.history.meet(&mut one.seat, &mut two.seat);
    }

    /// How many streams a shard had when it was opened. For people: nothing is claimed of it.
    pub fn stream_count(&self, shard: u32) -> usize
        requires shard { shard < self.now.about.shards }
    {
        match self.sizes.get(shard as usize) {
            Some(size) => size.streams,
            None => 0,
        }
    }

    /// How many bytes the segment in use of a shard had when it was opened, 0 where there was none. For people: nothing
    /// is claimed of it.
    pub fn segment_size(&self, shard: u32) -> u64
        requires shard { shard < self.now.about.shards }
    {
        match self.sizes.get(shard as usize) {
            Some(size) => size.bytes,
            None => 0,
        }
    }
}
