//! The end of an ingester.
ghost use Rattle.std.specs.Prelude.{◌≡◌, ℕ, ◌<◌, ◌+◌, List, Some, length, slice_get, vec_len, IfSome, MatchOption};
ghost use Rattle.history.specs.Handles.{Passed};
ghost use Rattle.ingester.specs.Calls.{IsPassOf};
ghost use Rattle.ingester.specs.Closings.{IsHandedOut, AreComparedTo};

use crate::opened::Ingester;
use crate::passes::Pass;
use disk::Disk;
use history::Ended;
use owners::{Closer, OpeningSnapshot, take_shard};
use shard::Shard;
use std::marker::Model;
use std::sync::Wait;

/// What an ingester leaves: its shards, and the passes that were handed in.
#[derive(Drop)]
pub struct Closed<D: Disk + Drop> {
    shards: Vec<Shard<D>>,
    passes: Vec<Pass>,
    origin: OpeningSnapshot<D>,
    ended: Ended,
}

impl<D: Disk + Drop> Model for Closed<D> {
    ghost use Rattle.std.specs.Coded.{codes};
    ghost use Rattle.accept.specs.contracts.image.Image as image;
    ghost use Rattle.ingester.specs.Closings.{Handed};

    ghost Value = { Handed D };

    ghost coded = { Prim.hlevel (codes, image.the_row.coded) };

    ghost use Rattle.std.specs.Prelude.{◌≡◌, length};
    ghost use Rattle.ingester.specs.Closings.{AreLast};

    ghost view = { λ c. record {
      opening = c.origin;
      passes = c.passes.items;
      left = length c.shards.items;
    } };

    ghost invariant = { λ c. AreLast D.sight D.follows c.origin c.passes.items c.shards.items
        × (c.ended ≡ c.origin.table) };
}

impl<D: Disk + Drop> Closed<D> {
    /// The slots of the last shard that is left, as they are, and whether they have a failure mark.
    pub fn take(&mut self) -> Option<([D; 2], bool)>
        ensures left { MatchOption result ((self.old.left ≡ 0)
            × (self.new ≡ self.old)) (λ _. self.new ≡ record self.old { left = self.new.left }
            × (self.old.left ≡ self.new.left + 1)) }
        ensures kept { IfSome result (λ handed.
            IsHandedOut D.sight D.follows self.old.opening self.old.passes self.new.left handed) }
    {
        let shard = self.shards.pop()?;
        let marked = shard.is_marked();
        Some((shard.into_slots(&self.ended), marked))
    }

    /// The passes that were handed in.
    pub fn passes(&self) -> &[Pass]
        ensures { result.now ≡ self.now.passes }
    {
        self.passes.as_slice()
    }
}

// Compares a shard with each pass.
fn compare<D: Disk + Drop>(shard: &mut Shard<D>, passes: &mut [Pass])
    requires table { (i : ℕ) (pass : Passed) → slice_get passes.old i ≡ Some pass
        → pass.table ≡ shard.old.book.table }
    ensures shard { shard.new ≡ shard.old }
    ensures passes { passes.new ≡ passes.old }
    ensures compared { AreComparedTo shard.old.book passes.old (length passes.old) }
{
    for i in 0..passes.len() {
        passes[i].settle(shard);
    }
}

impl<D: Disk + Drop> Ingester<D> {
    /// Ends each owner, once it has answered all calls that came before. A later call is in doubt, and closes its pass.
    /// `close` takes the shards back.
    pub fn end_owners<R: Wait>(&self, rt: &R, pass: &mut Pass)
        requires { IsPassOf self.now pass.old }
        ensures { pass.new ≡ pass.old }
    {
        pass.end_owners(rt);
    }

    /// Ends each owner, once it has answered all calls that came before, and takes its shard back.
    pub fn close<R: Wait>(self, rt: &R, passes: Vec<Pass>) -> Closed<D>
        requires some { 0 < vec_len passes }
        requires passes { (i : ℕ) (pass : Passed) → slice_get passes.items i ≡ Some pass
            → IsPassOf self pass }
        ensures { result ≡ record {
          opening = self;
          passes = passes.items;
          left =
              self.about.shards;
        } }
    {
        let Ingester {
            history,
            closing,
            sizes: _sizes,
            waiters: _waiters,
            count,
            origin,
        } = self;
        let mut passes = passes;
        passes[0].end_owners(rt);
        let Closer {
            mut backs,
            room: mut shards,
        } = closing.take_out();
        for number in 0..count as usize {
            let mut shard = take_shard(rt, &mut backs[number]);
            compare(&mut shard, passes.as_mut_slice());
            shards.push_reserved(shard);
        }
        Closed {
            shards,
            passes,
            origin,
            ended: history.end(),
        }
    }
}
