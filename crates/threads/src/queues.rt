//! Queues between threads: the order of messages, and what becomes of them once an end is gone.
ghost use Rattle.std.specs.Prelude.{◌≡◌, IfOk};
ghost use Rattle.keyed.specs.Queues.{sends_to, receives_as};
ghost use Rattle.keyed.specs.declared.binding.Binding.TheVariants.{Bound};

use keyed::{Fits, QueueReceiver, QueueSender, queue};
use std::alloc::Global;
use std::sync::Wait;
use std::test::*;
use std::thread::{Threads, join};

/// Each message is at least the sum of the key and the number of its queue.
struct FromKey;

impl Fits<u64, u64> for FromKey {
    ghost use Rattle.std.specs.Prelude.{◌+◌, ◌≤◌};

    ghost fits = { λ key number message. key + number ≤ message };
}

type NumberSender = QueueSender<u64, u64, FromKey>;

type NumberReceiver = QueueReceiver<u64, u64, FromKey>;

/// The first message.
const FIRST: u64 = 1_001;

/// How many messages one thread sends and another receives, and what comes of it.
#[derive(Clone, Copy)]
struct Run {
    name: &'static str,
    sent: u32,
    received: u32,
    /// How many are sent before one comes back: at least, and at most.
    went: (u32, u32),
    /// How many come.
    came: u32,
}

const RUNS: [Run; 3] = [
    Run {
        name: "messages come in their order",
        sent: 10_000,
        received: 10_000,
        went: (10_000, 10_000),
        came: 10_000,
    },
    Run {
        name: "none comes once the sender is gone",
        sent: 10,
        received: 1_000,
        went: (10, 10),
        came: 10,
    },
    Run {
        // Two more had room.
        name: "a sender waits no longer once the receiver is gone",
        sent: 10_000,
        received: 100,
        went: (100, 102),
        came: 100,
    },
];

/// A queue with room for two messages.
fn numbers(alloc: Global) -> Result<(NumberSender, NumberReceiver), Fail>
    ensures { IfOk result (λ ends. (sends_to ends.0 ≡ Bound 1000 1)
        × (receives_as ends.1 ≡ Bound 1000 1)) }
{
    Ok(queue(alloc, 2, &1_000, 1)?)
}

/// Sends `count` messages, from the first on. Gives how many were sent before one came back.
fn send_all<R: Wait>(rt: &R, mut sender: NumberSender, count: u32) -> u32
    requires { sends_to sender ≡ Bound 1000 1 }
{
    for number in 0..count {
        if sender.send(rt, FIRST + u64::from(number)).is_err() {
            return number;
        }
    }
    count
}

/// Receives `count` messages. Gives how many were the next one, before another came or none.
fn receive_all<R: Wait>(rt: &R, mut receiver: NumberReceiver, count: u32) -> u32
    requires { receives_as receiver ≡ Bound 1000 1 }
{
    for number in 0..count {
        if receiver.receive(rt).ok() != Some(FIRST + u64::from(number)) {
            return number;
        }
    }
    count
}

/// One thread sends messages, and another receives them. Says whether that comes of it which has to.
fn is_right<R: Wait + Threads + Sync>(rt: &R, alloc: Global, run: Run) -> Result<bool, Fail> {
    let (sender, receiver) = numbers(alloc)?;
    let (went, came) = join(
        rt,
        move || -> u32
            requires { sends_to sender ≡ Bound 1000 1 }
        { send_all(rt, sender, run.sent) },
        move || -> u32
            requires { receives_as receiver ≡ Bound 1000 1 }
        { receive_all(rt, receiver, run.received) },
    );
    let (least, most) = run.went;
    Ok(came == run.came && went >= least && went <= most)
}

#[test]
fn messages_go_from_thread_to_thread(rt: HostRuntime) -> Result<(), Fail> {
    for run in RUNS {
        assert!(rt; is_right(&rt, rt.alloc(), run)?, "{}", run.name);
    }
    let (mut sender, receiver) = numbers(rt.alloc())?;
    drop(receiver);
    assert_eq!(rt; sender.send(&rt, 5_000), Err(5_000));
    Ok(())
}
