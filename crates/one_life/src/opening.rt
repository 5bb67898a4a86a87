//! An opening of two shards with two passes, made of what `Ingester::open` makes one of.
ghost use Rattle.std.specs.Prelude.{◌≡◌, [], ◌∷◌, length, vec_len, IfSome};
ghost use Rattle.accept.specs.OneStream.{AreLimits};
ghost use Rattle.segment.specs.ShardPlaces.{place_of};
ghost use Rattle.wal.specs.Opened.{IsOpenedFrom};
ghost use Rattle.history.specs.Handles.{about_of};
ghost use Rattle.shard.specs.Shards.{IsGround};
ghost use Rattle.one_life.specs.Cut.{HaveBegun, AreOpened, opening_with};

use accept::{Image, Limits};
use disk::Disk;
use history::{Book, History, Pass};
use shard::Shard;
use std::alloc::Global;
use wal::{Capacity, Wal};

/// Two shards of an opening, and two of its passes.
#[derive(Drop)]
pub struct Two<D: Disk> {
    /// Shard 0.
    pub first: Shard<D>,
    /// Shard 1.
    pub second: Shard<D>,
    /// Pass 0.
    pub one: Pass,
    /// Pass 1.
    pub two: Pass,
}

// The histories of two shards, with a book of each and two passes.
#[derive(Drop)]
pub(crate) struct Begun {
    pub(crate) history: History,
    pub(crate) books: (Book, Book),
    pub(crate) passes: (Pass, Pass),
}

// Takes the two of a list.
fn take_both<T>(list: &mut Vec<T>) -> (T, T)
    requires { vec_len list.old ≡ 2 }
    ensures { list.old.items ≡ result.0 ∷ result.1 ∷ [] }
{
    let Some(second) = list.pop() else {
        unreachable!()
    };
    let Some(first) = list.pop() else {
        unreachable!()
    };
    (first, second)
}

// Begins histories over what was found of two shards, with two passes.
fn begin(alloc: Global, images: &[Image], limits: Limits, capacity: Capacity) -> Option<Begun>
    requires { length images.now ≡ 2 }
    ensures { IfSome result (λ it. HaveBegun (about_of images.now 2 limits capacity) it) }
{
    match History::new(alloc, images, 2, limits, capacity.bytes()) {
        Ok((history, mut books, mut passes)) => Some(Begun {
            history,
            books: take_both(&mut books),
            passes: take_both(&mut passes),
        }),
        Err(_) => None,
    }
}

// Opens the log of each shard.
fn open_logs<D: Disk + Drop>(
    alloc: Global,
    slots: ([D; 2], [D; 2]),
    capacity: Capacity,
) -> Option<((Wal<D>, Image), (Wal<D>, Image))>
    ensures first { IfSome result (λ it.
        IsOpenedFrom D.sight D.follows (place_of 0 2) capacity slots.0 it.0.0 it.0.1) }
    ensures second { IfSome result (λ it.
        IsOpenedFrom D.sight D.follows (place_of 1 2) capacity slots.1 it.1.0 it.1.1) }
{
    let (first, second) = slots;
    match Wal::open(alloc, first, 0, 2, capacity) {
        Ok(one) => match Wal::open(alloc, second, 1, 2, capacity) {
            Ok(two) => Some((one, two)),
            Err(_) => None,
        },
        Err(_) => None,
    }
}

// Makes a shard of each log.
fn open_shards<D: Disk + Drop>(
    alloc: Global,
    first: (Wal<D>, Image),
    second: (Wal<D>, Image),
    books: (Book, Book),
    limits: Limits,
) -> Option<(Shard<D>, Shard<D>)>
    requires first { IsGround D.sight D.follows limits first.0 first.1 books.0 }
    requires second { IsGround D.sight D.follows limits second.0 second.1 books.1 }
    ensures first { IfSome result
        (λ it. it.0 ≡ record { log = first.0; book = books.0; opened = first.0 }) }
    ensures second { IfSome result
        (λ it. it.1 ≡ record { log = second.0; book = books.1; opened = second.0 }) }
{
    match Shard::open(alloc, first.0, first.1, books.0, limits) {
        Ok(one) => match Shard::open(alloc, second.0, second.1, books.1, limits) {
            Ok(two) => Some((one, two)),
            Err(_) => None,
        },
        Err(_) => None,
    }
}

/// Opens two shards with two passes. `None` where that is refused, or there was no memory.
pub fn open_two<D: Disk + Drop>(
    alloc: Global,
    slots: ([D; 2], [D; 2]),
    limits: Limits,
    capacity: Capacity,
) -> Option<(History, Two<D>)>
    requires limits { AreLimits limits }
    ensures opened { IfSome result (λ it. AreOpened D.sight D.follows limits capacity
        (slots.0 ∷ slots.1 ∷ []) (opening_with it.1) it.1) }
    ensures table { IfSome result (λ it. it.1.first.book.table ≡ it.0) }
{
    let (first, second) = open_logs(alloc, slots, capacity)?;
    let (log, image) = first;
    let (next_log, next_image) = second;
    let Ok(mut images) = vec![in alloc; image, next_image] else {
        return None;
    };
    let begun = begin(alloc, &images, limits, capacity)?;
    let (found, next_found) = take_both(&mut images);
    let Begun {
        history,
        books,
        passes,
    } = begun;
    let (one, two) = passes;
    match open_shards(alloc, (log, found), (next_log, next_found), books, limits) {
        Some((first, second)) => Some((
            history,
            Two {
                first,
                second,
                one,
                two,
            },
        )),
        None => None,
    }
}
