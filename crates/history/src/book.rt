ghost use Rattle.std.specs.Prelude.{◌≡◌, ℕ, ◌<◌, ◌++◌, [], List, true, false, length};
ghost use Rattle.std.specs.Arc.{arc_value};
ghost use Rattle.std.specs.Coded.{codes};
ghost use Rattle.accept.specs.contracts.image.Image as image;
ghost use Rattle.history.specs.Types.{Unavailable, Ask, Answered, Failed, Keeps, Nothing};
ghost use Rattle.accept.specs.Histories.{is_marked};
ghost use Rattle.history.specs.Histories.{IsBeginning, IsLegalAt, IsByPasses, HaveSteps, doubt_or, doubt_of, reply_of, shard_in, step_of};
ghost use Rattle.history.specs.Plays.{seen_at, HasStepsOf, HasRoomForSteps};
ghost use Rattle.history.specs.Rule.{alone};
ghost use Rattle.history.specs.Handles.{Booked, IsBook, longer, asks_of, doubted_to, AreOf, shelf_in, booked, with_doubt};

use crate::handles::{Pass, Receipt, Ticket};
use crate::table::{
    At, Board, Commits, Counts, Doubts, Gives, Leaves, Marks, Settles, Sits, Steps, Takes, ViewSeat,
};
use accept::Reply;
use std::marker::{Brand, Model};
use std::mem;
use std::sync::Arc;

/// What a shard keeps of its history on its disk.
pub trait Kept {
    /// A crash now leaves the meaning of this book's history, or of that history followed by a beginning of these calls
    /// in doubt.
    ghost kept: { Self → Booked → List Ask → Type 0 };

    /// What the clocks of the shard's two slots say.
    ghost moment: { Self → ℕ × ℕ };

    /// The calls that are written and not yet in the book, in their order.
    ghost doubts: { Self → List Ask };
}

/// A shard's history. Who has the book adds to it. Contracts see the list of its items; the program keeps only their
/// number, in the table.
#[derive(Drop)]
pub struct Book {
    pub(crate) shard: usize,
    pub(crate) table: Arc<Board>,
    pub(crate) seat: ViewSeat,
}

impl Model for Book {
    ghost Value = { Booked };

    ghost coded = { Prim.hlevel (codes, image.the_row.coded) };

    ghost view = { λ b. booked b.seat };

    ghost invariant = { λ b. IsBook (arc_value b.table).shared.table_id b.shard b.seat };
}

impl Book {
    /// Adds the call with its reply to the history, once the disk keeps it, and gives the reply back. Calls of one pass
    /// on one shard are committed in the order in which they were announced. Of calls that were written together, each
    /// is in doubt until it is added.
    pub fn commit<K: Kept>(&mut self, kept: &K, ticket: Ticket, reply: Reply) -> (Reply, Receipt)
        requires table { ticket.table ≡ self.old.table }
        requires shard { shard_in self.old.about ticket.ask ≡ self.old.shard }
        requires order { HaveSteps ticket.before self.old.items }
        requires reply { reply ≡ reply_of self.old.about self.old.shard self.old.items
            ticket.ask.call }
        requires kept { K.kept kept.now (longer self.old (Answered (step_of ticket.ask reply)))
            (doubt_or self.old.items (K.doubts kept.now)) }
        ensures book { self.new ≡ longer self.old (Answered (step_of ticket.ask reply)) }
        ensures reply { result.0 ≡ reply }
        ensures receipt { result.1
            ≡ record {
              table = ticket.table;
              step = step_of ticket.ask reply;
              upto = self.new.items;
              moment = K.moment kept.now;
            } }
    {
        let receipt = self.commit_at::<Brand, K>(kept, ticket, &reply);
        (reply, receipt)
    }

    fn commit_at<J: At, K: Kept>(&mut self, kept: &K, ticket: Ticket, reply: &Reply) -> Receipt
        requires table { ticket.table ≡ self.old.table }
        requires shard { shard_in self.old.about ticket.ask ≡ self.old.shard }
        requires order { HaveSteps ticket.before self.old.items }
        requires reply { reply.now
            ≡ reply_of self.old.about self.old.shard self.old.items ticket.ask.call }
        requires moment { J.moment ≡ K.moment kept.now }
        ensures book { self.new ≡ longer self.old (Answered (step_of ticket.ask reply.now)) }
        ensures receipt { result ≡ record {
          table = ticket.table;
          step = step_of ticket.ask reply.now;
          upto = self.new.items;
          moment = K.moment kept.now;
        } }
    {
        let _ = kept;
        let _ = reply;
        let Ticket { number, pass, seat } = ticket;
        let shared = &self.table.shared;
        shared.join_seat::<Takes>(&mut self.seat, seat);
        shared.fetch_add::<Commits<J>>(&mut self.seat, self.shard, 1);
        Receipt {
            number,
            pass,
            seat: shared.split_seat::<Gives>(&mut self.seat),
        }
    }

    /// Answers a call after the failure mark: `Unavailable`, whatever the call is.
    pub fn refuse<K: Kept>(&mut self, kept: &K, ticket: Ticket) -> (Reply, Receipt)
        requires table { ticket.table ≡ self.old.table }
        requires shard { shard_in self.old.about ticket.ask ≡ self.old.shard }
        requires order { HaveSteps ticket.before self.old.items }
        requires marked { is_marked self.old.items ≡ true }
        requires kept { K.kept kept.now
            (longer self.old (Answered (step_of ticket.ask Unavailable)))
            (doubt_of self.old.items) }
        ensures book { self.new ≡ longer self.old (Answered (step_of ticket.ask Unavailable)) }
        ensures reply { result.0 ≡ Unavailable }
        ensures receipt { result.1
            ≡ record {
              table = ticket.table;
              step = step_of ticket.ask Unavailable;
              upto = self.new.items;
              moment = K.moment kept.now;
            } }
    {
        self.commit(kept, ticket, Reply::Unavailable)
    }

    /// Adds the failure mark, with these calls in doubt. They stay open. From now on each call is answered
    /// `Unavailable`.
    pub fn mark<K: Kept>(&mut self, kept: &K, tickets: &mut [Ticket])
        requires tickets { AreOf self.old tickets.old }
        requires unmarked { is_marked self.old.items ≡ false }
        requires kept { K.kept kept.now (longer self.old (Failed (asks_of tickets.old)))
            (asks_of tickets.old) }
        ensures book { self.new ≡ longer self.old (Failed (asks_of tickets.old)) }
        ensures tickets { tickets.new ≡ doubted_to (length tickets.old) tickets.old }
    {
        let _ = kept;
        let shared = &self.table.shared;
        put_in_doubt(shared, &mut self.seat, tickets);
        shared.fetch_add::<Marks>(&mut self.seat, self.shard, 1);
    }

    /// How many items the history has: at most one step for each number of each pass, and the mark. It is legal, and
    /// has only steps of passes of the opening.
    pub fn len(&mut self) -> u64
        ensures book { self.new ≡ self.old }
        ensures len { result ≡ length self.old.items }
        ensures short { HasRoomForSteps self.old.about self.old.items }
        ensures legal { IsLegalAt self.old.about self.old.shard self.old.items }
        ensures by_passes { IsByPasses self.old.about.passes self.old.items }
    {
        self.table.shared.load::<Counts>(&mut self.seat, self.shard)
    }

    /// Compares the book with a pass, and changes neither. The history begins with what the pass has seen, has of the
    /// pass exactly its steps, and has only steps of passes of the opening.
    pub fn settle(&mut self, pass: &mut Pass)
        requires table { pass.old.table ≡ self.old.table }
        ensures book { self.new ≡ self.old }
        ensures pass { pass.new ≡ pass.old }
        ensures begins { IsBeginning (seen_at pass.old.caller self.old.shard) self.old.items }
        ensures legal { IsLegalAt self.old.about self.old.shard self.old.items }
        ensures steps { HasStepsOf pass.old.caller self.old.shard self.old.items }
        ensures by_passes { IsByPasses self.old.about.passes self.old.items }
        ensures about { pass.old.caller.about ≡ self.old.about }
    {
        let shared = &self.table.shared;
        let blank = shared.split_seat::<Gives>(&mut self.seat);
        let guest = mem::replace(&mut pass.seat, blank);
        shared.join_seat::<Sits>(&mut self.seat, guest);
        shared.load::<Settles>(&mut self.seat, self.shard);
        pass.seat = shared.split_seat::<Leaves>(&mut self.seat);
    }
}

// Adds the tickets' calls to those that the book has in doubt, in their order.
fn put_in_doubt(shared: &Steps, seat: &mut ViewSeat, tickets: &mut [Ticket])
    requires seat { seat.old.table_id ≡ shared.now.table_id }
    requires book { seat.old.me ≡ (alone (Keeps (shelf_in seat.old.me.0.role)) Nothing, []) }
    requires words { 0 < shared.now.table_id.words }
    requires tickets { AreOf (booked seat.old) tickets.old }
    ensures seat { (seat.new.table_id ≡ seat.old.table_id)
        × (seat.new.me ≡ (
          alone
              (Keeps (with_doubt (shelf_in seat.old.me.0.role) ((shelf_in seat.old.me.0.role).doubt
              ++ asks_of tickets.old))) Nothing,
          [],
        )) }
    ensures tickets { tickets.new ≡ doubted_to (length tickets.old) tickets.old }
{
    for ticket in tickets {
        let blank = shared.split_seat::<Gives>(seat);
        let held = mem::replace(&mut ticket.seat, blank);
        shared.join_seat::<Doubts>(seat, held);
        ticket.seat = shared.split_seat::<Gives>(seat);
    }
}
