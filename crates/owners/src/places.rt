//! What was opened.

use disk::Disk;
use history::Book;
use keyed::Fits;
use shard::Shard;
use std::marker::Model;
use std::snapshot::Snapshot;
use wal::Wal;

/// What was opened: the table of its histories, how many shards and passes, and the logs. It has no bytes.
#[derive(Drop)]
pub struct OpeningSnapshot<D: Disk> {
    /// The first shard's book, before any step.
    pub first: Snapshot<Book>,
    /// The log of each shard, in the order of their numbers, as it was opened.
    pub logs: Snapshot<Vec<Wal<D>>>,
}

impl<D: Disk> Model for OpeningSnapshot<D> {
    ghost use Rattle.std.specs.Coded.{codes};
    ghost use Rattle.accept.specs.contracts.image.Image as image;
    ghost use Rattle.owners.specs.Openings.{Opening, opening_of};

    ghost Value = { Opening D };

    ghost coded = { Prim.hlevel (codes, image.the_row.coded) };

    ghost view = { λ o. opening_of o.first.value o.logs.value.items };
}

/// The same without its disks. It takes no memory: the rules of the queues speak of it.
#[derive(Drop)]
pub struct Home {
    /// The first shard's book, before any step.
    pub first: Snapshot<Book>,
}

impl Model for Home {
    ghost use Rattle.std.specs.Coded.{codes};
    ghost use Rattle.accept.specs.contracts.image.Image as image;
    ghost use Rattle.owners.specs.Homes.{Homed};

    ghost Value = { Homed };

    ghost coded = { Prim.hlevel (codes, image.the_row.coded) };

    ghost view = { λ h. record {
      table = h.first.value.table;
      about = h.first.value.about;
    } };
}

/// A shard that comes back is the one of its queue's number, of that opening.
pub struct OfOpening;

impl<D: Disk> Fits<Shard<D>, OpeningSnapshot<D>> for OfOpening {
    ghost use Rattle.owners.specs.Places.{IsOf};

    ghost fits = { λ opening k shard. IsOf D.sight D.follows opening k shard };
}
