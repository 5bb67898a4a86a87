//! The calls of requests without threads: each is made by a turn of its shard.
ghost use Rattle.std.specs.Prelude.{◌≡◌, ◌<◌, [], ◌∷◌};
ghost use Rattle.accept.specs.Calls.{AreNumbers};
ghost use Rattle.ingester.specs.Calls.{IsGiven, shard_for};
ghost use Rattle.ingester.specs.Faults.{fault_of};
ghost use Rattle.shard.specs.Turns.{AreReady};
ghost use Rattle.one_life.specs.Cut.{IsOn, IsIdle, IsOfTicket, opening_with};
ghost use Rattle.whole.specs.ServedOnce.{HasTurned, AreServing, FirstGives};

use accept::{Call, CallFault, Reply};
use answering::Calls;
use disk::Disk;
use history::{History, Pass, Ticket};
use labels::shard_of;
use one_life::{Two, empty_tray};
use shard::{ApplyFault, Job, Settled, Shard};
use std::alloc::Global;
use std::collections::VecDeque;
use std::snapshot::Snapshot;
use std::sync::Wait;

/// Two shards whose turns are made where the call is: their histories, and the shards and passes as they were opened.
#[derive(Drop)]
pub struct ByTurns<'a, D: Disk + Drop> {
    /// The histories of both shards.
    pub history: &'a History,
    /// What was opened. It has no bytes.
    pub start: Snapshot<Two<D>>,
}

// Why a call has no reply that a shard gave back.
fn fault_of(cause: ApplyFault) -> CallFault
    ensures { result ≡ fault_of cause }
{
    match cause {
        ApplyFault::Memory => CallFault::Memory,
        ApplyFault::GenerationSpent => CallFault::LogSpent,
    }
}

// The number of the shard that a call belongs to, among two.
fn number_of(call: &Call) -> u32
    ensures on { IsOn result call.now }
    ensures within { result < 2 }
{
    shard_of(call.key(), 2)
}

// Makes one call by a turn of its shard. Where there is no memory for the lists of a turn, the ticket comes back.
fn take_turn<D: Disk>(alloc: Global, shard: &mut Shard<D>, ticket: Ticket, call: Call) -> Settled
    requires { AreReady shard.old.book (record { ticket = ticket; call = call } ∷ []) }
    ensures settled { IsOfTicket ticket result }
    ensures turned { HasTurned D.sight D.follows shard.old shard.new }
{
    let Some(mut tray) = empty_tray(alloc) else {
        return Settled::GivenBack(ApplyFault::Memory, ticket);
    };
    tray.jobs.push_back_reserved(Job { ticket, call });
    shard.apply_group(alloc, &mut tray.jobs, &mut tray.settled);
    match tray.settled.pop() {
        Some(settled) => settled,
        None => unreachable!(),
    }
}

// Makes the next call of a pass by a turn of its shard, and takes in what became of it.
fn call_by_turn<D: Disk>(
    alloc: Global,
    history: &History,
    shard: &mut Shard<D>,
    pass: &mut Pass,
    call: Call,
) -> Result<Reply, CallFault>
    requires pass { IsIdle history.now shard.old.book.about pass.old }
    requires table { shard.old.book.table ≡ history.now }
    requires here { shard_for pass.old.caller call ≡ shard.old.book.shard }
    requires numbers { AreNumbers call }
    ensures turned { HasTurned D.sight D.follows shard.old shard.new }
    ensures given { IsGiven pass.old call result pass.new }
    ensures pass { IsIdle history.now shard.old.book.about pass.new }
{
    if pass.is_closed() {
        return Err(CallFault::PassClosed);
    }
    let Ok(ticket) = history.announce(pass, &call) else {
        unreachable!()
    };
    match take_turn(alloc, shard, ticket, call) {
        Settled::Answered(reply, receipt) => {
            history.collect(pass, receipt);
            Ok(reply)
        }
        Settled::GivenBack(fault, ticket) => {
            history.withdraw(pass, ticket);
            Err(fault_of(fault))
        }
    }
}

impl<'a, D: Disk + Drop> Calls for ByTurns<'a, D> {
    type Pass = Two<D>;

    ghost is_ready = { λ service. AreServing D.sight D.follows service.history.now
        (opening_with service.start.value) };

    ghost gives = { λ _. FirstGives };

    fn call<R: Wait>(
        &self,
        _rt: &R,
        alloc: Global,
        pass: &mut Two<D>,
        call: Call,
    ) -> Result<Reply, CallFault> {
        if number_of(&call) == 0 {
            call_by_turn(alloc, self.history, &mut pass.first, &mut pass.one, call)
        } else {
            call_by_turn(alloc, self.history, &mut pass.second, &mut pass.one, call)
        }
    }

    fn call_all<R: Wait>(
        &self,
        rt: &R,
        alloc: Global,
        pass: &mut Two<D>,
        calls: &mut VecDeque<Call>,
        outcomes: &mut VecDeque<Result<Reply, CallFault>>,
    ) {
        while let Some(call) = calls.pop_front() {
            let outcome = self.call(rt, alloc, pass, call);
            outcomes.push_back_reserved(outcome);
        }
    }
}
