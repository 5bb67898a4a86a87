//! How the queues of an opening are made: a row of routes for each pass, and the ends of each owner.
ghost use Rattle.std.specs.Prelude.{◌≡◌, ◌+◌, vec_len, IfOk, OnOk};
ghost use Rattle.std.specs.VecDeque.{deque_len};
ghost use Rattle.owners.specs.Routes.{IsIdleRoute};
ghost use Rattle.owners.specs.QueueEnds.{IsShardQueues, AreShardQueues, IsRow, AreRows};

use crate::messages::{AnswerSender, OrderReceiver, OrderSender};
use crate::places::Home;
use crate::routes::{ShardRoute, blank};
use history::Pass;
use keyed::queue;
use std::alloc::{AllocError, Global};
use std::collections::VecDeque;
use std::mem;
use std::sync::atomic::AtomicBool;

/// The ends of the queues of a shard, before its owner has them: how it gets orders, how it answers the first passes,
/// and how further passes come to send orders.
#[derive(Drop)]
pub struct ShardQueues {
    /// How orders reach it.
    pub orders: OrderSender,
    /// How it gets them.
    pub gets: OrderReceiver,
    /// How it answers each pass.
    pub answers: Vec<AnswerSender>,
}

/// How many messages a queue of orders has room for.
const ORDERS: usize = Pass::MAX;

// The ends of a shard, for no pass so far.
fn make_queues(
    alloc: Global,
    home: &Home,
    shard: usize,
    passes: usize,
) -> Result<ShardQueues, AllocError>
    ensures queues { IfOk result (IsShardQueues home.now 0 shard) }
{
    let (orders, gets) = queue(alloc, ORDERS, home, shard)?;
    let answers = Vec::with_capacity(alloc, passes)?;
    Ok(ShardQueues {
        orders,
        gets,
        answers,
    })
}

// The route of the next pass to a shard.
fn make_route(
    alloc: Global,
    home: &Home,
    shard: usize,
    pass: usize,
    queues: &mut ShardQueues,
) -> Result<ShardRoute, AllocError>
    requires { IsShardQueues home.now pass shard queues.old }
    ensures route { IfOk result (IsIdleRoute home.now pass shard) }
    ensures queues { OnOk result (IsShardQueues home.now (pass + 1) shard queues.new) }
{
    let orders = queues.orders.another()?;
    let (to, answers) = queue(alloc, 1, home, pass)?;
    if queues.answers.push(to).is_err() {
        return Err(AllocError);
    }
    Ok(ShardRoute {
        message: blank(alloc, pass),
        is_out: false,
        is_full: AtomicBool::new(false),
        orders,
        answers,
    })
}

// The row of the next pass.
fn make_row(
    alloc: Global,
    home: &Home,
    pass: usize,
    all_queues: &mut VecDeque<ShardQueues>,
) -> Result<Vec<ShardRoute>, AllocError>
    requires { AreShardQueues home.now pass all_queues.old.items }
    ensures row { IfOk result (λ row. IsRow home.now (deque_len all_queues.old) pass row.items) }
    ensures all_queues { OnOk result (AreShardQueues home.now (pass + 1) all_queues.new.items) }
    ensures len { OnOk result (deque_len all_queues.new ≡ deque_len all_queues.old) }
{
    let count = all_queues.len();
    let mut row = Vec::with_capacity(alloc, count)?;
    let mut done = VecDeque::with_capacity(alloc, count)?;
    while let Some(mut queues) = all_queues.pop_front() {
        let route = make_route(alloc, home, done.len(), pass, &mut queues)?;
        row.push_reserved(route);
        done.push_back_reserved(queues);
    }
    mem::swap(all_queues, &mut done);
    Ok(row)
}

/// The routes of each of `passes` passes to each of `shards` shards, and the ends of each shard's owner.
pub fn make_rows(
    alloc: Global,
    home: &Home,
    shards: usize,
    passes: usize,
) -> Result<(Vec<Vec<ShardRoute>>, VecDeque<ShardQueues>), AllocError>
    ensures rows { IfOk result (λ r. AreRows home.now shards r.0.items × (vec_len r.0 ≡ passes)) }
    ensures all_queues { IfOk result (λ r. AreShardQueues home.now passes r.1.items
        × (deque_len r.1 ≡ shards)) }
{
    let mut all_queues = VecDeque::with_capacity(alloc, shards)?;
    for shard in 0..shards {
        all_queues.push_back_reserved(make_queues(alloc, home, shard, passes)?);
    }
    let mut rows = Vec::with_capacity(alloc, passes)?;
    for pass in 0..passes {
        rows.push_reserved(make_row(alloc, home, pass, &mut all_queues)?);
    }
    Ok((rows, all_queues))
}
