//! The passes of an opening.
ghost use Rattle.std.specs.Prelude.{◌≡◌, ◌<◌, ◌≤◌, true, vec_len, vec_capacity};
ghost use Rattle.history.specs.Histories.{IsBeginning, IsLegalAt, IsByPasses};
ghost use Rattle.history.specs.Plays.{seen_at, HasStepsOf};
ghost use Rattle.history.specs.Handles.{is_closed_pass};
ghost use Rattle.owners.specs.Homes.{Homed};
ghost use Rattle.owners.specs.Lists.{AreEach};
ghost use Rattle.owners.specs.QueueEnds.{AreRows, IsSeatAt};

use disk::Disk;
use history::Pass as Seat;
use owners::{ShardRoute, end_owners, next_full};
use shard::Shard;
use std::collections::VecDeque;
use std::marker::Model;
use std::sync::Wait;

/// A caller's place at the shards of an opening: its seat at their histories, and its routes to their owners. Contracts
/// see the seat.
#[derive(Drop)]
pub struct Pass {
    pub(crate) seat: Seat,
    pub(crate) routes: Vec<ShardRoute>,
}

impl Model for Pass {
    ghost use Rattle.std.specs.Coded.{codes};
    ghost use Rattle.accept.specs.contracts.image.Image as image;
    ghost use Rattle.history.specs.Handles.{Passed};

    ghost Value = { Passed };

    ghost coded = { Prim.hlevel (codes, image.the_row.coded) };

    ghost use Rattle.ingester.specs.Passes.{HasRoutes};

    ghost view = { λ p. p.seat };

    ghost invariant = { λ p. HasRoutes p.seat p.routes.items };
}

impl Pass {
    /// The most passes of an opening.
    pub const MAX: usize = Seat::MAX;

    /// The most open calls of a pass.
    pub const MAX_OPEN: usize = Seat::MAX_OPEN;

    /// Whether it makes no more calls: it was closed, or has used the last call number, 2^56 - 1.
    pub fn is_closed(&self) -> bool
        ensures { result ≡ is_closed_pass self.now }
    {
        self.seat.is_closed()
    }

    /// Its number: from 0, below the number of passes of its opening.
    pub fn number(&self) -> usize
        ensures { (result ≡ self.now.caller.pass) × (result < self.now.caller.about.passes) }
    {
        self.seat.number()
    }

    /// From now on it makes no calls.
    pub fn close(&mut self)
        ensures { self.new ≡ record self.old { closed = true } }
    {
        self.seat.close();
    }

    /// A shard at which a call of this pass has found no room since that was asked last.
    pub fn next_full(&self) -> Option<usize> {
        next_full(&self.routes)
    }

    // Sends each owner the last order.
    pub(crate) fn end_owners<R: Wait>(&mut self, rt: &R)
        ensures { self.new ≡ self.old }
    {
        end_owners(rt, &mut self.routes);
    }

    // Compares a shard's history with what the pass has seen.
    pub(crate) fn settle<D: Disk + Drop>(&mut self, shard: &mut Shard<D>)
        requires table { self.old.table ≡ shard.old.book.table }
        ensures shard { shard.new ≡ shard.old }
        ensures pass { self.new ≡ self.old }
        ensures begins { IsBeginning
            (seen_at self.old.caller shard.old.book.shard) shard.old.book.items }
        ensures legal { IsLegalAt shard.old.book.about shard.old.book.shard shard.old.book.items }
        ensures steps { HasStepsOf self.old.caller shard.old.book.shard shard.old.book.items }
        ensures by_passes { IsByPasses shard.old.book.about.passes shard.old.book.items }
    {
        shard.settle(&mut self.seat);
    }
}

// The passes with these seats and these routes, into a list with room for them.
pub(crate) fn seat_passes(
    mut passes: Vec<Pass>,
    seats: Vec<Seat>,
    rows: Vec<Vec<ShardRoute>>,
) -> Vec<Pass>
    requires room { (vec_len passes ≡ 0) × (vec_len seats ≤ vec_capacity passes) }
    requires home { (home : Homed) × AreEach (IsSeatAt home) 0 seats.items
        × AreRows home home.about.shards rows.items }
    requires same { vec_len rows ≡ vec_len seats }
    ensures { result.items ≡ seats.items }
{
    let mut seats = VecDeque::from_vec(seats);
    let mut rows = VecDeque::from_vec(rows);
    while let Some(seat) = seats.pop_front() {
        let Some(routes) = rows.pop_front() else {
            unreachable!()
        };
        passes.push_reserved(Pass { seat, routes });
    }
    passes
}
