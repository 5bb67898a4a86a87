//! What threads do to the shards of an ingester, each with a pass of its own.
ghost use Rattle.std.specs.Prelude.{◌≡◌, ℕ, Some, slice_get};
ghost use Rattle.history.specs.Handles.{Passed};
ghost use Rattle.ingester.specs.Calls.{IsPassOf};

use crate::context::{GatedSlot, Pushes, Task, ThreadContext};
use crate::opening::{last_of, open, slot_lengths};
use crate::tasks::play;
use ingester::{Ingester, Pass};
use memory_disk::Gate;
use std::alloc::{AllocError, Global};
use std::sync::{Barrier, Wait};
use std::test::*;
use std::thread::{self, Threads};
use std::time::Clock;

/// What threads do.
struct ThreadPlan {
    name: &'static str,
    /// The shards: whether the gate holds their syncs. It is closed at the beginning.
    held: &'static [bool],
    /// What each thread does.
    roles: &'static [&'static [Task]],
    /// How long a rest is, in milliseconds. Where all was not right, it is tried with the next time.
    times: &'static [u64],
    /// The lengths of the slots of the last shard, if they count.
    lengths: Option<[u64; 2]>,
}

/// How long a thread waits for the one before it to come to the shard, in milliseconds. Where that was too short, so
/// that the threads came in another order, all is done again with the next time.
const TIMES: [u64; 6] = [10, 20, 40, 80, 160, 320];

/// The lengths of the slots with a segment of one push and of one block with two more. (With a block for each it would
/// be longer.)
const GROUPED: [u64; 2] = [0, 153];

/// The lengths of the slots with a segment of one push alone.
const ALONE: [u64; 2] = [0, 82];

/// A push to shard 0, where there are two.
const HELD: Pushes = Pushes("1", 10, 1);

/// A push to shard 1, where there are two.
const FREE: Pushes = Pushes("2", 11, 1);

const PLANS: [ThreadPlan; 8] = [
    ThreadPlan {
        name: "gate_two_shards",
        held: &[true, false],
        roles: &[
            &[
                Task::Push(HELD),
                Task::Gather,
                Task::Look(0, 1),
                Task::Look(1, 1),
                Task::Gather,
                Task::Read(FREE),
            ],
            &[
                Task::Push(FREE),
                Task::Look(0, 0),
                Task::Open,
                Task::Gather,
                Task::Look(0, 1),
                Task::Look(1, 1),
                Task::Gather,
                Task::Read(HELD),
            ],
            &[
                Task::Gather,
                Task::Look(0, 1),
                Task::Look(1, 1),
                Task::Gather,
            ],
        ],
        times: &[0],
        lengths: None,
    },
    ThreadPlan {
        name: "gate_look_while_held",
        held: &[true, false],
        roles: &[
            &[Task::Push(HELD), Task::Gather],
            &[
                Task::Rest(1),
                Task::Look(0, 0),
                Task::Open,
                Task::Gather,
                Task::Look(0, 1),
            ],
        ],
        times: &[50],
        lengths: None,
    },
    ThreadPlan {
        name: "gate_all_shards_before_the_first_answer, the first held",
        held: &[true, false],
        roles: &[&[Task::PushBoth(HELD, FREE)], &[Task::See(1), Task::Open]],
        times: &[0],
        lengths: None,
    },
    ThreadPlan {
        name: "gate_all_shards_before_the_first_answer, the second held",
        held: &[false, true],
        roles: &[&[Task::PushBoth(HELD, FREE)], &[Task::See(0), Task::Open]],
        times: &[0],
        lengths: None,
    },
    ThreadPlan {
        name: "gate_three_calls_in_one_group",
        held: &[true],
        roles: &[
            &[Task::Push(Pushes("1", 10, 1))],
            &[Task::Rest(1), Task::Push(Pushes("1", 11, 1))],
            &[Task::Rest(2), Task::Read(Pushes("1", 10, 2))],
            &[Task::Rest(3), Task::Push(Pushes("1", 12, 1))],
            &[Task::Rest(4), Task::Open],
        ],
        times: &TIMES,
        lengths: Some(GROUPED),
    },
    ThreadPlan {
        name: "gate_calls_in_the_queue_of_an_owner_that_ends",
        held: &[true],
        roles: &[
            &[Task::Push(Pushes("1", 10, 1))],
            &[Task::Rest(1), Task::EndOwners],
            &[Task::Rest(2), Task::Doubt(Pushes("1", 11, 1))],
            &[Task::Rest(3), Task::Doubt(Pushes("1", 12, 1))],
            &[Task::Rest(4), Task::Open],
        ],
        times: &TIMES,
        lengths: Some(ALONE),
    },
    ThreadPlan {
        name: "two_threads_push_to_one_stream",
        held: &[false],
        roles: &[
            &[Task::Push(Pushes("1", 1_000, 100)), Task::Gather],
            &[
                Task::Push(Pushes("1", 1_100, 100)),
                Task::Gather,
                Task::Look(0, 200),
                Task::Read(Pushes("1", 1_000, 200)),
            ],
        ],
        times: &[0],
        lengths: None,
    },
    ThreadPlan {
        name: "four_threads_push_to_one_stream",
        held: &[false],
        roles: &[
            &[Task::Push(Pushes("1", 1_000, 50)), Task::Gather],
            &[Task::Push(Pushes("1", 1_050, 50)), Task::Gather],
            &[Task::Push(Pushes("1", 1_100, 50)), Task::Gather],
            &[
                Task::Push(Pushes("1", 1_150, 50)),
                Task::Gather,
                Task::Read(Pushes("1", 1_000, 200)),
            ],
        ],
        times: &[0],
        lengths: None,
    },
];

/// Each pass does its tasks in a thread of its own: whether all is right.
fn play_in_threads<R: Threads + Wait + Clock + Sync>(
    context: &ThreadContext<R>,
    passes: Vec<Pass>,
) -> Result<bool, AllocError>
    requires { (p : ℕ) (pass : Passed) → slice_get passes.items p ≡ Some pass
        → IsPassOf context.now.ingester.now pass }
{
    let played = thread::map_vec(
        context.rt,
        passes,
        &move |pass: Pass| -> bool
            requires { IsPassOf context.now.ingester.now pass }
        { play(context, pass) },
    )?;
    Ok(played.iter().all(|is_right| *is_right))
}

/// Does what a plan says over this ingester, with this time: whether all is right.
fn play_over<R: Threads + Wait + Clock + Sync>(
    rt: &R,
    alloc: Global,
    gate: &Gate,
    ingester: &Ingester<GatedSlot>,
    passes: Vec<Pass>,
    plan: &ThreadPlan,
    time: u64,
) -> Result<bool, AllocError>
    requires { (p : ℕ) (pass : Passed) → slice_get passes.items p ≡ Some pass
        → IsPassOf ingester.now pass }
{
    gate.close();
    let context = ThreadContext {
        rt,
        alloc,
        ingester,
        gate,
        all: Barrier::new(plan.roles.len()),
        roles: plan.roles,
        time,
    };
    play_in_threads(&context, passes)
}

/// The same over an ingester that its last pass then closes: whether the slots are as the plan says, too.
fn play_and_close<R>(
    rt: &R,
    alloc: Global,
    gate: &Gate,
    opened: (Ingester<GatedSlot>, Vec<Pass>),
    plan: &ThreadPlan,
    time: u64,
) -> Result<bool, Fail>
where
    R: Threads + Wait + Clock + Sync,
    requires { (p : ℕ) (pass : Passed) → slice_get opened.1.items p ≡ Some pass
        → IsPassOf opened.0 pass }
{
    let (ingester, mut passes) = opened;
    let last = last_of(&ingester, &mut passes)?;
    let played = play_over(rt, alloc, gate, &ingester, passes, plan, time)?;
    let lengths = slot_lengths(rt, alloc, ingester, last)?;
    Ok(played && plan.lengths.is_none_or(|wanted| wanted == lengths))
}

/// Does what a plan says, with this time: whether all is right.
fn is_right_with<R>(rt: &R, alloc: Global, plan: &ThreadPlan, time: u64) -> Result<bool, Fail>
where
    R: Threads + Wait + Clock + Copy + Send + Sync + 'static,
{
    let gate = Gate::new(alloc)?;
    let threads = u32::try_from(plan.roles.len()).unwrap_or(64);
    let opened = open(rt, alloc, &gate, plan.held, threads.saturating_add(1))?;
    play_and_close(rt, alloc, &gate, opened, plan, time)
}

/// Does what a plan says with each of its times, until all is right: whether it is once.
fn is_right<R>(rt: &R, alloc: Global, plan: &ThreadPlan) -> Result<bool, Fail>
where
    R: Threads + Wait + Clock + Copy + Send + Sync + 'static,
{
    for time in plan.times {
        if is_right_with(rt, alloc, plan, *time)? {
            return Ok(true);
        }
    }
    Ok(false)
}

#[test]
fn shards_are_called_by_threads(rt: HostRuntime) -> Result<(), Fail> {
    for plan in &PLANS {
        assert!(rt; is_right(&rt, rt.alloc(), plan)?, "{}", plan.name);
    }
    Ok(())
}
