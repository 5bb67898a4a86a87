//! How slots are given back, in their order.
ghost use Rattle.std.specs.Prelude.{◌≡◌, ◌+◌, ◌≤◌, ◌++◌, map, vec_len};
ghost use Rattle.std.specs.VecDeque.{deque_len, deque_capacity};
ghost use Rattle.wal.specs.Opening.{disks};

use disk::Disk;
use std::collections::VecDeque;
use wal::Wal;

/// Puts the slots of logs in front of others, in their order.
pub fn give_back<D: Disk + Drop>(slots: &mut VecDeque<[D; 2]>, logs: &mut Vec<Wal<D>>)
    requires { vec_len logs.old + deque_len slots.old ≤ deque_capacity slots.old }
    ensures items { slots.new.items ≡ map disks logs.old.items ++ slots.old.items }
    ensures capacity { deque_capacity slots.new ≡ deque_capacity slots.old }
{
    while let Some(log) = logs.pop() {
        slots.push_front_reserved(log.into_slots());
    }
}
