//! How shards are made of opened logs.
ghost use Rattle.std.specs.Prelude.{◌≡◌, ◌+◌, ◌<◌, ◌≤◌, ◌++◌, [], map, vec_len, IfOk, OnErr};
ghost use Rattle.std.specs.Vec.{vec_capacity};
ghost use Rattle.std.specs.VecDeque.{deque_len, deque_capacity};
ghost use Rattle.wal.specs.Opening.{disks};
ghost use Rattle.ingester.specs.Makings.{AreBooksIn, AreGround, AreShardsOfLogs};

use crate::made_shards::{make_one, return_shards};
use crate::sizes::Size;
use accept::{Image, Limits};
use disk::Disk;
use history::{Book, History};
use openings::give_back;
use shard::Shard;
use std::alloc::{AllocError, Global};
use std::collections::VecDeque;
use wal::Wal;

// What shards are made of: a log, an image and a book for each, and the limits.
pub(crate) struct Ground<D: Disk + Drop> {
    pub(crate) logs: Vec<Wal<D>>,
    pub(crate) images: Vec<Image>,
    pub(crate) books: Vec<Book>,
    pub(crate) limits: Limits,
}

// Makes the shards, in a list with room for them. Without memory the histories end, and all slots are put back.
pub(crate) fn make_shards<D: Disk + Drop>(
    alloc: Global,
    history: History,
    slots: &mut VecDeque<[D; 2]>,
    mut shards: VecDeque<Option<Shard<D>>>,
    ground: Ground<D>,
) -> Result<(History, Vec<Option<Shard<D>>>), AllocError>
    requires ground { AreGround D.sight D.follows ground.limits ground.logs.items
        ground.images.items ground.books.items }
    requires table { AreBooksIn history ground.books.items }
    requires lens { (vec_len ground.images ≡ vec_len ground.logs)
        × (vec_len ground.books ≡ vec_len ground.logs) }
    requires shards { (shards.items ≡ []) × (deque_len shards ≡ 0)
        × (vec_len ground.logs ≤ deque_capacity shards) }
    requires slots { vec_len ground.logs + deque_len slots.old ≤ deque_capacity slots.old }
    ensures made { IfOk result
        (λ made. AreShardsOfLogs made.1.items ground.logs.items ground.books.items) }
    ensures same { IfOk result (λ made. made.0 ≡ history) }
    ensures unmade { OnErr result
        (slots.new.items ≡ map disks ground.logs.items ++ slots.old.items) }
    ensures room { IfOk result (λ made. (slots.new ≡ slots.old)
        × (vec_len made.1 ≡ vec_len ground.logs)) }
{
    let Ground {
        mut logs,
        mut images,
        mut books,
        limits,
    } = ground;
    while let Some(log) = logs.pop() {
        let Some(image) = images.pop() else {
            unreachable!()
        };
        let Some(book) = books.pop() else {
            unreachable!()
        };
        if let Err(log) = make_one(alloc, log, image, book, limits, &mut shards) {
            let ended = history.end();
            return_shards(slots, shards.into_vec(), &ended);
            slots.push_front_reserved(log.into_slots());
            give_back(slots, &mut logs);
            return Err(AllocError);
        }
    }
    Ok((history, shards.into_vec()))
}

// Notes what each shard has, in a list with room for all.
pub(crate) fn sizes_of<D: Disk + Drop>(
    mut sizes: Vec<Size>,
    shards: &Vec<Option<Shard<D>>>,
) -> Vec<Size>
    requires { (vec_len sizes ≡ 0) × (vec_len shards.now ≤ vec_capacity sizes) }
{
    for place in shards.iter() {
        let size = match place {
            Some(shard) => Size {
                streams: shard.stream_count(),
                bytes: shard.segment_size(),
            },
            None => Size {
                streams: 0,
                bytes: 0,
            },
        };
        sizes.push_reserved(size);
    }
    sizes
}
