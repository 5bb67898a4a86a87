//! Two threads, each with up to 64 open calls on two shards, which it collects in their order.
ghost use Rattle.std.specs.Prelude.{◌≡◌, ◌+◌, ◌<◌, ◌≤◌, [], length, IfOk, IfSome};
ghost use Rattle.accept.specs.declared.call.Reply.TheVariants.{Unavailable};
ghost use Rattle.accept.specs.declared.history.Item.TheVariants.{Answered};
ghost use Rattle.history.specs.Histories.{HaveSteps, max_open, shard_in, step_of};
ghost use Rattle.history.specs.Handles.{longer};
ghost use Rattle.threads.specs.Windows.{AreBooks, HaveAll, IsMarkedBook, IsOpeningOfTwo, IsThreadReady, IsWindow, MayFollowIn, with_step_of_shard};

use crate::meetings::{Memory, read_call};
use accept::{Call, Image, Limits, Reply};
use history::{Book, History, Pass, Receipt, Ticket};
use labels::shard_of;
use std::alloc::Global;
use std::collections::VecDeque;
use std::marker::{Brand, Model, PhantomData};
use std::process::Abort;
use std::sync::{Mutex, Wait};
use std::test::*;
use std::thread::{Threads, join};

/// How many times a thread fills its pass with open calls.
const ROUNDS: u64 = 5;

/// Which opening a test has.
trait TestOpening {
    ghost use Rattle.atomic_table.specs.Seated.{TableId};
    ghost use Rattle.history.specs.declared.views.About.{About};

    ghost table: { TableId };

    ghost about: { About };
}

impl TestOpening for Brand {
    ghost use Rattle.history.specs.Handles.{no_about};

    ghost table = { record {
      words = 0;
      slots = 0;
      views_name = 0;
      atom = 0;
      block = 0;
      offset = 0;
      slot_names = [];
    } };

    ghost about = { no_about };
}

// Refuses a call on the shard of this book.
fn refuse_in<J: TestOpening>(book: &mut Book, ticket: Ticket) -> (Reply, Receipt)
    requires table { ticket.table ≡ J.table }
    requires book { IsMarkedBook J.table J.about book.old }
    requires shard { shard_in J.about ticket.ask ≡ book.old.shard }
    requires order { HaveSteps ticket.before book.old.items }
    ensures book { book.new ≡ longer book.old (Answered (step_of ticket.ask Unavailable)) }
    ensures marked { IsMarkedBook J.table J.about book.new }
    ensures table { result.1.table ≡ J.table }
    ensures step { result.1.step ≡ step_of ticket.ask Unavailable }
{
    book.refuse(&Memory, ticket)
}

// Refuses a call in the book of its shard.
fn refuse<J: TestOpening>(
    zero: &mut Book,
    one: &mut Book,
    shard: u32,
    ticket: Ticket,
) -> (Reply, Receipt)
    requires table { ticket.table ≡ J.table }
    requires shard { (shard_in J.about ticket.ask ≡ shard) × (shard < 2) }
    requires books { AreBooks J.table J.about zero.old one.old }
    requires order { MayFollowIn J.about 0 ticket zero.old × MayFollowIn J.about 1 ticket one.old }
    ensures books { AreBooks J.table J.about zero.new one.new }
    ensures zero { zero.new ≡ with_step_of_shard J.about 0 zero.old
        (step_of ticket.ask Unavailable) }
    ensures one { one.new ≡ with_step_of_shard J.about 1 one.old (step_of ticket.ask Unavailable) }
    ensures table { result.1.table ≡ J.table }
    ensures step { result.1.step ≡ step_of ticket.ask Unavailable }
{
    if shard == 0 {
        refuse_in::<J>(zero, ticket)
    } else {
        refuse_in::<J>(one, ticket)
    }
}

// Opens one more call, which is refused in the book of its shard.
fn open_call<J: TestOpening>(
    history: &History,
    zero: &mut Book,
    one: &mut Book,
    pass: &mut Pass,
    answers: &mut VecDeque<Receipt>,
    call: &Call,
) -> Option<()>
    requires history { history.now ≡ J.table }
    requires few { length pass.old.caller.pending < max_open }
    requires books { AreBooks J.table J.about zero.old one.old }
    requires window { IsWindow J.table J.about pass.old answers.old.items }
    requires had { HaveAll J.about pass.old.caller.pending zero.old one.old }
    ensures books { AreBooks J.table J.about zero.new one.new }
    ensures window { IsWindow J.table J.about pass.new answers.new.items }
    ensures had { HaveAll J.about pass.new.caller.pending zero.new one.new }
    ensures one_more { length pass.new.caller.pending ≤ length pass.old.caller.pending + 1 }
{
    answers.reserve(1).ok()?;
    let shard = shard_of(call.key(), 2);
    let Ok(ticket) = history.announce(pass, call) else {
        return None;
    };
    let (reply, answer) = refuse::<J>(zero, one, shard, ticket);
    answers.push_back_reserved(answer);
    matches!(reply, Reply::Unavailable).then_some(())
}

// Opens all these calls.
fn open_all<J: TestOpening>(
    history: &History,
    zero: &mut Book,
    one: &mut Book,
    pass: &mut Pass,
    answers: &mut VecDeque<Receipt>,
    calls: &[Call],
) -> Option<()>
    requires history { history.now ≡ J.table }
    requires few { length calls.now ≤ max_open }
    requires books { AreBooks J.table J.about zero.old one.old }
    requires window { IsWindow J.table J.about pass.old answers.old.items }
    requires idle { pass.old.caller.pending ≡ [] }
    ensures books { AreBooks J.table J.about zero.new one.new }
    ensures window { IsWindow J.table J.about pass.new answers.new.items }
{
    for call in calls {
        open_call::<J>(history, zero, one, pass, answers, call)?;
    }
    Some(())
}

// Collects the answers in their order, and gives the number of the last one.
fn take_in<J: TestOpening>(
    history: &History,
    pass: &mut Pass,
    answers: &mut VecDeque<Receipt>,
) -> u64
    requires history { history.now ≡ J.table }
    requires window { IsWindow J.table J.about pass.old answers.old.items }
    ensures window { IsWindow J.table J.about pass.new answers.new.items }
    ensures idle { pass.new.caller.pending ≡ [] }
{
    let mut last = 0;
    while let Some(answer) = answers.pop_front() {
        last = answer.number();
        history.collect(pass, answer);
    }
    last
}

/// The books of both shards, each with a failure mark.
#[derive(Drop)]
struct Books<J: TestOpening> {
    zero: Book,
    one: Book,
    of: PhantomData<J>,
}

impl<J: TestOpening> Model for Books<J> {
    ghost use Rattle.std.specs.Prelude.{⊤};
    ghost use Rattle.threads.specs.Windows.{AreBooks};

    ghost Value = { ⊤ };

    ghost view = { λ b. tt };

    ghost invariant = { λ b. AreBooks J.table J.about b.zero b.one };
}

impl<J: TestOpening> Books<J> {
    fn open_all(
        &mut self,
        history: &History,
        pass: &mut Pass,
        answers: &mut VecDeque<Receipt>,
        calls: &[Call],
    ) -> Option<()>
        requires history { history.now ≡ J.table }
        requires few { length calls.now ≤ max_open }
        requires window { IsWindow J.table J.about pass.old answers.old.items }
        requires idle { pass.old.caller.pending ≡ [] }
        ensures window { IsWindow J.table J.about pass.new answers.new.items }
    {
        open_all::<J>(history, &mut self.zero, &mut self.one, pass, answers, calls)
    }
}

// Opens all calls and collects their answers, again and again.
fn rounds<J: TestOpening>(
    rt: &impl Wait,
    alloc: Global,
    history: &History,
    books: &Mutex<Books<J>>,
    calls: &[Call],
    mut pass: Pass,
) -> Option<Pass>
    requires history { history.now ≡ J.table }
    requires few { length calls.now ≤ max_open }
    requires pass { IsWindow J.table J.about pass [] }
    ensures { IfSome result (λ p. IsWindow J.table J.about p []) }
{
    let mut answers = VecDeque::new(alloc);
    for round in 0..ROUNDS {
        let opened = books
            .lock(rt)
            .open_all(history, &mut pass, &mut answers, calls);
        let full = pass.is_full();
        let last = take_in::<J>(history, &mut pass, &mut answers);
        if opened.is_none() || !full || last != (round + 1) * 64 {
            return None;
        }
    }
    Some(pass)
}

fn both_call<J: TestOpening + Send + Sync, R: Threads + Wait + Abort + Sync>(
    rt: &R,
    alloc: Global,
    history: &History,
    books: (Book, Book),
    calls: &[Call],
    one: Pass,
    two: Pass,
) -> Result<(), Fail>
    requires history { history.now ≡ J.table }
    requires few { length calls.now ≤ max_open }
    requires opening { IsOpeningOfTwo J.table J.about books.0 books.1 one two }
{
    let (zero, first) = books;
    let books = Mutex::new(Books::<J> {
        zero,
        one: first,
        of: PhantomData,
    });
    let books = &books;
    let (one, two) = join(
        rt,
        move || -> Option<Pass>
            requires { IsThreadReady J.table J.about history.now calls.now one }
            ensures { IfSome result (λ p. IsWindow J.table J.about p []) }
        { rounds(rt, alloc, history, books, calls, one) },
        move || -> Option<Pass>
            requires { IsThreadReady J.table J.about history.now calls.now two }
            ensures { IfSome result (λ p. IsWindow J.table J.about p []) }
        { rounds(rt, alloc, history, books, calls, two) },
    );
    let (Some(mut one), Some(mut two)) = (one, two) else {
        return Err("a pass does not end its rounds".into());
    };
    history.meet(&mut one, &mut two);
    // Of a pass's 64 calls 22 are to shard 0. The mark is an item too.
    assert_eq!(rt; history.observe(&mut one, 0), 2 * 22 * ROUNDS + 1);
    assert_eq!(rt; history.observe(&mut two, 1), 2 * 42 * ROUNDS + 1);
    Ok(())
}

/// A history of two shards, their books, each with a failure mark, and two passes.
fn open(alloc: Global) -> Result<(History, (Book, Book), Pass, Pass), Fail>
    ensures { IfOk result (λ it. IsOpeningOfTwo it.0 it.2.caller.about it.1.0 it.1.1 it.2 it.3) }
{
    let bases = vec![in alloc; Image::new(alloc), Image::new(alloc)]?;
    let (history, mut books, mut passes) = History::new(alloc, &bases, 2, Limits::PROFILE, 4_096)?;
    let (Some(mut one), Some(mut zero)) = (books.pop(), books.pop()) else {
        return Err("an opening of two shards".into());
    };
    let (Some(second), Some(first)) = (passes.pop(), passes.pop()) else {
        return Err("an opening with two passes".into());
    };
    zero.mark(&Memory, &mut []);
    one.mark(&Memory, &mut []);
    Ok((history, (zero, one), first, second))
}

/// 64 reads: each third one, from the first on, is of a stream of shard 0, the others of one of shard 1.
fn reads(alloc: Global) -> Result<Vec<Call>, Fail> {
    let mut calls = Vec::new(alloc);
    for number in 0..64 {
        let value = if number % 3 == 0 { "1" } else { "2" };
        calls.push(read_call(alloc, value).ok_or("a call")?)?;
    }
    Ok(calls)
}

#[test]
fn many_calls_are_open(rt: HostRuntime) -> Result<(), Fail> {
    let calls = reads(rt.alloc())?;
    if calls.len() > 64 {
        return Err("more calls than may be open".into());
    }
    let (history, books, one, two) = open(rt.alloc())?;
    both_call::<Brand, HostRuntime>(&rt, rt.alloc(), &history, books, &calls, one, two)
}
