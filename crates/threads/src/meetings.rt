//! Passes over the history of one shard: two threads that make calls, and meet.
ghost use Rattle.std.specs.Prelude.{◌≡◌, ◌+◌, ◌<◌, ℕ, List, [], ◌∷◌, length, false, IfSome, IfOk};
ghost use Rattle.accept.specs.Histories.{is_marked};
ghost use Rattle.accept.specs.declared.call.Reply.TheVariants.{Entries};
ghost use Rattle.history.specs.Histories.{shard_in, step_of};
ghost use Rattle.threads.specs.Reads.{ReadsNothing};

use accept::{Call, EntryList, Image, Limits, Reply};
use history::{Book, History, Kept, Pass, Receipt, Ticket};
use labels::{LabelSet, StreamKey, Tenant};
use pairs::LabelPairs;
use std::alloc::Global;
use std::marker::{Brand, Model, PhantomData};
use std::process::Abort;
use std::sync::{Mutex, Wait};
use std::test::*;
use std::thread::{Threads, join};

/// A shard with no disk.
pub(crate) struct Memory;

impl Kept for Memory {
    ghost use Rattle.std.specs.Prelude.{⊤, []};

    ghost kept = { λ _ _ _. ⊤ };

    ghost moment = { λ _. (0, 0) };

    ghost doubts = { λ _. [] };
}

/// Which table a test has.
trait Room {
    ghost use Rattle.atomic_table.specs.Seated.{TableId};

    ghost table: { TableId };
}

impl Room for Brand {
    ghost table = { record {
      words = 0;
      slots = 0;
      views_name = 0;
      atom = 0;
      block = 0;
      offset = 0;
      slot_names = [];
    } };
}

/// The book of the one shard, whose log has not failed. Contracts see the length of its history.
#[derive(Drop)]
struct UnmarkedBook<J: Room> {
    book: Book,
    of: PhantomData<J>,
}

impl<J: Room> Model for UnmarkedBook<J> {
    ghost use Rattle.std.specs.Prelude.{◌≡◌, ℕ, length, false};
    ghost use Rattle.accept.specs.Histories.{is_marked};

    ghost Value = { ℕ };

    ghost view = { λ d. length d.book.items };

    ghost invariant = { λ d. (d.book.table ≡ J.table) × (d.book.about.shards ≡ 1)
        × (d.book.shard ≡ 0)
        × (is_marked d.book.items ≡ false) };
}

impl<J: Room> UnmarkedBook<J> {
    fn answer(&mut self, ticket: Ticket, reply: Reply) -> Receipt
        requires ticket { (ticket.table ≡ J.table) × ReadsNothing ticket.ask.call }
        requires alone { ticket.before ≡ [] }
        requires reply { reply ≡ Entries [] }
        ensures receipt { (result.table ≡ J.table) × (result.step ≡ step_of ticket.ask reply) }
    {
        let (_reply, receipt) = self.book.commit(&Memory, ticket, reply);
        receipt
    }
}

/// A read of no time range, of the stream with this value of its one label.
pub(crate) fn read_call(alloc: Global, value: &str) -> Option<Call>
    ensures { IfSome result ReadsNothing }
{
    let mut pairs = Vec::new(alloc);
    pairs
        .push(("a".to_string(alloc).ok()?, value.to_string(alloc).ok()?))
        .ok()?;
    let key = StreamKey {
        tenant: Tenant::new(alloc, "t").ok()?,
        labels: LabelSet::new(alloc, LabelPairs::new(pairs)).ok()?,
    };
    Some(Call::Read {
        key,
        from: 0,
        to: 0,
    })
}

/// The history of one shard, its book, and two passes.
fn open(alloc: Global) -> Result<(History, Book, Pass, Pass), Fail>
    ensures book { IfOk result (λ it. (it.1.table ≡ it.0) × (it.1.about.shards ≡ 1)
        × (it.1.shard ≡ 0)
        × (it.1.items ≡ [])) }
    ensures one { IfOk result (λ it. (it.2.table ≡ it.0) × (it.2.caller.about.shards ≡ 1)
        × (it.2.caller.pending ≡ [])
        × (it.2.caller.last ≡ 0)) }
    ensures two { IfOk result (λ it. (it.3.table ≡ it.0) × (it.3.caller.about.shards ≡ 1)
        × (it.3.caller.pending ≡ [])
        × (it.3.caller.last ≡ 0)) }
{
    let bases = vec![in alloc; Image::new(alloc)]?;
    let (history, mut books, mut passes) = History::new(alloc, &bases, 2, Limits::PROFILE, 4_096)?;
    let (Some(book), Some(two), Some(one)) = (books.pop(), passes.pop(), passes.pop()) else {
        return Err("an opening of one shard with two passes".into());
    };
    Ok((history, book, one, two))
}

// One call of a pass, from its announcement to its answer.
fn call<J: Room>(
    rt: &impl Wait,
    alloc: Global,
    history: &History,
    unmarked_book: &Mutex<UnmarkedBook<J>>,
    pass: &mut Pass,
    read: &Call,
) -> Option<()>
    requires history { history.now ≡ J.table }
    requires read { ReadsNothing read.now }
    requires table { pass.old.table ≡ J.table }
    requires idle { pass.old.caller.pending ≡ [] }
    ensures table { pass.new.table ≡ J.table }
    ensures about { pass.new.caller.about ≡ pass.old.caller.about }
    ensures idle { pass.new.caller.pending ≡ [] }
    ensures number { IfSome result (λ _. pass.new.caller.last ≡ pass.old.caller.last + 1) }
{
    match history.announce(pass, read) {
        Ok(ticket) => {
            let reply = Reply::Entries(EntryList::new(Vec::new(alloc)));
            let receipt = unmarked_book.lock(rt).answer(ticket, reply);
            history.collect(pass, receipt);
            Some(())
        }
        Err(_) => None,
    }
}

// A hundred calls.
fn calls<J: Room>(
    rt: &impl Wait,
    alloc: Global,
    history: &History,
    unmarked_book: &Mutex<UnmarkedBook<J>>,
    mut pass: Pass,
) -> Option<Pass>
    requires history { history.now ≡ J.table }
    requires pass { (pass.table ≡ J.table) × (pass.caller.about.shards ≡ 1)
        × (pass.caller.pending ≡ [])
        × (pass.caller.last ≡ 0) }
    ensures pass { IfSome result (λ p. (p.table ≡ J.table) × (p.caller.about.shards ≡ 1)
        × (p.caller.pending ≡ [])) }
    ensures number { IfSome result (λ p. p.caller.last ≡ 100) }
{
    let read = read_call(alloc, "1")?;
    let read = &read;
    for made in 0..100u64 {
        call(rt, alloc, history, unmarked_book, &mut pass, read)?;
        let _ = made;
    }
    Some(pass)
}

fn both_call<J: Room + Send + Sync, R: Threads + Wait + Abort + Sync>(
    rt: &R,
    alloc: Global,
    history: History,
    book: Book,
    one: Pass,
    two: Pass,
) -> Result<(), Fail>
    requires history { history ≡ J.table }
    requires book { (book.table ≡ J.table) × (book.about.shards ≡ 1) × (book.shard ≡ 0)
        × (book.items ≡ []) }
    requires one { (one.table ≡ J.table) × (one.caller.about.shards ≡ 1) × (one.caller.pending ≡ [])
        × (one.caller.last ≡ 0) }
    requires two { (two.table ≡ J.table) × (two.caller.about.shards ≡ 1) × (two.caller.pending ≡ [])
        × (two.caller.last ≡ 0) }
{
    let unmarked_book = Mutex::new(UnmarkedBook::<J> {
        book,
        of: PhantomData,
    });
    let (history, unmarked_book) = (&history, &unmarked_book);
    let (one, two) = join(
        rt,
        move || -> Option<Pass>
            requires { (history.now ≡ J.table) × (one.table ≡ J.table)
                × (one.caller.about.shards ≡ 1)
                × (one.caller.pending ≡ []) × (one.caller.last ≡ 0) }
            ensures { IfSome result (λ p. (p.table ≡ J.table) × (p.caller.about.shards ≡ 1)) }
        { calls(rt, alloc, history, unmarked_book, one) },
        move || -> Option<Pass>
            requires { (history.now ≡ J.table) × (two.table ≡ J.table)
                × (two.caller.about.shards ≡ 1)
                × (two.caller.pending ≡ []) × (two.caller.last ≡ 0) }
            ensures { IfSome result (λ p. (p.table ≡ J.table) × (p.caller.about.shards ≡ 1)) }
        { calls(rt, alloc, history, unmarked_book, two) },
    );
    let mut one = one.ok_or("the first pass calls")?;
    let mut two = two.ok_or("the second pass calls")?;
    history.meet(&mut one, &mut two);
    assert_eq!(rt; history.observe(&mut one, 0), 200);
    assert_eq!(rt; history.observe(&mut two, 0), 200);
    Ok(())
}

#[test]
fn two_threads_meet(rt: HostRuntime) -> Result<(), Fail> {
    let (history, book, one, two) = open(rt.alloc())?;
    both_call::<Brand, HostRuntime>(&rt, rt.alloc(), history, book, one, two)
}
