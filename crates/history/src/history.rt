ghost use Rattle.std.specs.Prelude.{◌≡◌, ◌≢◌, ◌↔◌, ℕ, ◌+◌, ◌<◌, ◌≤◌, [], false, length, IfOk, OnOk, OnErr, IsOk};
ghost use Rattle.std.specs.Arc.{arc_value};
ghost use Rattle.atomic_table.specs.Seated.{TableId, table_id_coded};
ghost use Rattle.history.specs.Histories.{IsBeginning, IsLegalAt, IsByPasses, IsFirst, IsFirstNumber, IsFirstIfAmong, asks_on, asks_beside, shard_in, bound, max_open};
ghost use Rattle.history.specs.Plays.{seen_at, announce_to, withdraw_to, withdraw_at, collect_to, collect_at, look_to, IsRested, IsRestedAt, IsNextOn, IsFirstSaid, IsNextSaid, IsFirstOf, StaysRested, HasSeenStep, HasStepsOf};
ghost use Rattle.history.specs.Handles.{is_closed_pass, ticket_for, caller_in, pair_of, with_seen, HaveMet};

use crate::handles::{Pass, PassSpent, Receipt, Ticket};
use crate::table::{
    Announces, Board, Collects, Gives, Leaves, Looks, Meets, Saying, Sits, Steps, Takes, ViewSeat,
    Withdraws,
};
use accept::Call;
use std::marker::{Brand, Model};
use std::mem;
use std::sync::Arc;

/// The histories of all shards, as each pass can look at them. Contracts see which table it is.
#[derive(Drop)]
pub struct History {
    pub(crate) table: Arc<Board>,
}

impl Model for History {
    ghost Value = { TableId };

    ghost coded = { table_id_coded };

    ghost view = { λ h. (arc_value h.table).shared.table_id };
}

/// The end of an opening's histories. Contracts see which table it was. Only `History::end` gives it, so whoever has
/// no `History`, as the owner of a shard, has none.
#[derive(Drop)]
pub struct Ended {
    pub(crate) table: Arc<Board>,
}

impl Model for Ended {
    ghost Value = { TableId };

    ghost coded = { table_id_coded };

    ghost view = { λ e. (arc_value e.table).shared.table_id };
}

impl History {
    /// Ends the histories: no call is announced, and no history looked at, after this.
    pub fn end(self) -> Ended
        ensures { result ≡ self }
    {
        let History { table } = self;
        Ended { table }
    }

    /// Announces a call under the next number of the pass. Its ticket names the earlier open calls of the pass on the
    /// same shard.
    pub fn announce(&self, pass: &mut Pass, call: &Call) -> Result<Ticket, PassSpent>
        requires table { pass.old.table ≡ self.now }
        requires few { length pass.old.caller.pending < max_open }
        ensures ticket { IfOk result (λ t. t
            ≡ ticket_for self.now pass.old.caller (pass.old.caller.last + 1) call.now) }
        ensures pass { OnOk result (pass.new
            ≡ record pass.old {
              caller = announce_to pass.old.caller
                  (pass.old.caller.last + 1) call.now;
            }) }
        ensures rested { OnOk result (pass.old.caller.pending ≡ [] → IsRested pass.old.caller) }
        ensures rested_there { OnOk result ((k : ℕ)
            → asks_on pass.old.caller.about k pass.old.caller.pending ≡ []
            → IsRestedAt pass.old.caller k) }
        ensures err { OnErr result (pass.new ≡ pass.old) }
        ensures open { IsOk result ↔ (is_closed_pass pass.old ≡ false) }
    {
        if pass.is_closed() {
            return Err(PassSpent);
        }
        Ok(self.announce_call::<Brand>(pass, call))
    }

    fn announce_call<J: Saying>(&self, pass: &mut Pass, call: &Call) -> Ticket
        requires table { pass.old.table ≡ self.now }
        requires few { length pass.old.caller.pending < max_open }
        requires open { is_closed_pass pass.old ≡ false }
        requires call { call.now ≡ J.call }
        ensures ticket { result
            ≡ ticket_for self.now pass.old.caller (pass.old.caller.last + 1) call.now }
        ensures pass { pass.new ≡ record pass.old {
          caller = announce_to pass.old.caller
              (pass.old.caller.last + 1) call.now;
        } }
        ensures rested { pass.old.caller.pending ≡ [] → IsRested pass.old.caller }
        ensures rested_there { (k : ℕ) → asks_on pass.old.caller.about k pass.old.caller.pending ≡ []
            → IsRestedAt pass.old.caller k }
    {
        let _ = call;
        let number = pass.next_number();
        self.announce_under::<J>(pass, number)
    }

    // Announces the call under a number above all that the pass has used.
    pub(crate) fn announce_under<J: Saying>(&self, pass: &mut Pass, number: u64) -> Ticket
        requires table { pass.old.table ≡ self.now }
        requires few { length pass.old.caller.pending < max_open }
        requires number { (pass.old.caller.last < number) × (number < bound) }
        ensures ticket { result ≡ ticket_for self.now pass.old.caller number J.call }
        ensures pass { pass.new ≡ record pass.old {
          caller =
              announce_to pass.old.caller number J.call;
        } }
        ensures rested { pass.old.caller.pending ≡ [] → IsRested pass.old.caller }
        ensures rested_there { (k : ℕ) → asks_on pass.old.caller.about k pass.old.caller.pending ≡ []
            → IsRestedAt pass.old.caller k }
    {
        let own = pass.number();
        let shared = &self.table.shared;
        shared.store::<Announces<J>>(&mut pass.seat, pass.word, number);
        pass.last = number;
        pass.calls += 1;
        Ticket {
            number,
            pass: own,
            seat: shared.split_seat::<Gives>(&mut pass.seat),
        }
    }

    /// Collects the answer to the first open call of a shard, whatever is open on other shards. What the pass has seen
    /// of the shard is now what it had seen before, then items of others, then this step. Answers are told apart by
    /// their numbers. While calls are open on a shard, nothing else of the pass's own may have been seen there.
    pub fn collect_there(&self, pass: &mut Pass, receipt: Receipt)
        requires table { (pass.old.table ≡ self.now) × (receipt.table ≡ self.now) }
        requires pass { receipt.step.ask.pass ≡ pass.old.caller.pass }
        requires next { (k : ℕ) × IsNextOn pass.old.caller receipt.step.ask.number k }
        ensures first { IsFirst receipt.step.ask
            (asks_beside pass.old.caller.about receipt.step.ask pass.old.caller.pending) }
        ensures shard { (k : ℕ)
            → IsFirstNumber receipt.step.ask.number (asks_on pass.old.caller.about k pass.old.caller.pending)
            → k ≡ shard_in pass.old.caller.about receipt.step.ask }
        ensures pass { pass.new ≡ record pass.old {
          caller =
              collect_at pass.old.caller receipt.step receipt.upto;
        } }
        ensures seen { HasSeenStep pass.old.caller pass.new.caller receipt.step receipt.upto }
        ensures rested { StaysRested pass.old.caller pass.new.caller
            (shard_in pass.old.caller.about receipt.step.ask) }
    {
        self.collect_first(pass, receipt);
    }

    /// Collects the answer to the first of all open calls, as `collect_there` does. Where only one call is open, its
    /// number is not looked at.
    pub fn collect(&self, pass: &mut Pass, receipt: Receipt)
        requires table { (pass.old.table ≡ self.now) × (receipt.table ≡ self.now) }
        requires pass { receipt.step.ask.pass ≡ pass.old.caller.pass }
        requires number { IsFirstIfAmong receipt.step.ask pass.old.caller.pending }
        requires rested { IsRested pass.old.caller }
        ensures first { IsFirst receipt.step.ask pass.old.caller.pending }
        ensures pass { pass.new ≡ record pass.old {
          caller =
              collect_to pass.old.caller receipt.step receipt.upto;
        } }
        ensures seen { HasSeenStep pass.old.caller pass.new.caller receipt.step receipt.upto }
        ensures rested { IsRested pass.new.caller }
    {
        self.collect_first(pass, receipt);
    }

    // Collects the answer to the first open call of a shard, which its number tells.
    fn collect_first(&self, pass: &mut Pass, receipt: Receipt)
        requires table { (pass.old.table ≡ self.now) × (receipt.table ≡ self.now) }
        requires pass { receipt.step.ask.pass ≡ pass.old.caller.pass }
        requires next { IsNextSaid pass.old.caller receipt.step.ask }
        ensures first { IsFirstOf pass.old.caller receipt.step.ask }
        ensures pass { pass.new ≡ record pass.old {
          caller =
              collect_at pass.old.caller receipt.step receipt.upto;
        } }
        ensures seen { HasSeenStep pass.old.caller pass.new.caller receipt.step receipt.upto }
        ensures rested { StaysRested pass.old.caller pass.new.caller
            (shard_in pass.old.caller.about receipt.step.ask) }
    {
        let Receipt {
            number: _,
            pass: _,
            seat,
        } = receipt;
        let word = pass.word_behind_first();
        let shared = &self.table.shared;
        shared.join_seat::<Takes>(&mut pass.seat, seat);
        shared.store::<Collects>(&mut pass.seat, pass.word, word);
        pass.calls -= 1;
    }

    /// Withdraws the first open call of a shard, which has no step and is not in doubt, whatever is open on other
    /// shards. Its number is not used again.
    pub fn withdraw_there(&self, pass: &mut Pass, ticket: Ticket)
        requires table { (pass.old.table ≡ self.now) × (ticket.table ≡ self.now) }
        requires pass { (ticket.ask.pass ≡ pass.old.caller.pass) × (ticket.doubted ≡ false) }
        requires number { (k : ℕ) × IsFirstNumber ticket.ask.number
            (asks_on pass.old.caller.about k pass.old.caller.pending) }
        ensures first { IsFirst ticket.ask
            (asks_beside pass.old.caller.about ticket.ask pass.old.caller.pending) }
        ensures shard { (k : ℕ)
            → IsFirstNumber ticket.ask.number (asks_on pass.old.caller.about k pass.old.caller.pending)
            → k ≡ shard_in pass.old.caller.about ticket.ask }
        ensures pass { pass.new ≡ record pass.old {
          caller =
              withdraw_at pass.old.caller ticket.ask;
        } }
    {
        self.withdraw_first(pass, ticket);
    }

    /// Withdraws the first of all open calls, as `withdraw_there` does.
    pub fn withdraw(&self, pass: &mut Pass, ticket: Ticket)
        requires table { (pass.old.table ≡ self.now) × (ticket.table ≡ self.now) }
        requires pass { (ticket.ask.pass ≡ pass.old.caller.pass) × (ticket.doubted ≡ false) }
        requires number { IsFirstIfAmong ticket.ask pass.old.caller.pending }
        ensures first { IsFirst ticket.ask pass.old.caller.pending }
        ensures pass { pass.new ≡ record pass.old {
          caller =
              withdraw_to pass.old.caller ticket.ask.number;
        } }
    {
        self.withdraw_first(pass, ticket);
    }

    // Withdraws the first open call of a shard, which its number tells.
    fn withdraw_first(&self, pass: &mut Pass, ticket: Ticket)
        requires table { (pass.old.table ≡ self.now) × (ticket.table ≡ self.now) }
        requires pass { (ticket.ask.pass ≡ pass.old.caller.pass) × (ticket.doubted ≡ false) }
        requires number { IsFirstSaid pass.old.caller ticket.ask }
        ensures first { IsFirstOf pass.old.caller ticket.ask }
        ensures pass { pass.new ≡ record pass.old {
          caller =
              withdraw_at pass.old.caller ticket.ask;
        } }
    {
        let Ticket {
            number: _,
            pass: _,
            seat,
        } = ticket;
        let word = pass.word_behind_first();
        let shared = &self.table.shared;
        shared.join_seat::<Takes>(&mut pass.seat, seat);
        shared.store::<Withdraws>(&mut pass.seat, pass.word, word);
        pass.calls -= 1;
    }

    /// Sees the history of a shard as it is now, and answers its length. Its steps are all of passes of the opening.
    pub fn observe(&self, pass: &mut Pass, shard: usize) -> u64
        requires table { pass.old.table ≡ self.now }
        requires shard { shard < pass.old.caller.about.shards }
        ensures pass { pass.new ≡ record pass.old {
          caller = look_to pass.old.caller shard
              (seen_at pass.new.caller shard);
        } }
        ensures others { (k : ℕ) → k ≢ shard
            → seen_at pass.new.caller k ≡ seen_at pass.old.caller k }
        ensures begins { IsBeginning (seen_at pass.old.caller shard)
            (seen_at pass.new.caller shard) }
        ensures legal { IsLegalAt pass.old.caller.about shard (seen_at pass.new.caller shard) }
        ensures length { result ≡ length (seen_at pass.new.caller shard) }
        ensures by_passes { IsByPasses pass.old.caller.about.passes
            (seen_at pass.new.caller shard) }
        ensures steps { HasStepsOf pass.old.caller shard (seen_at pass.new.caller shard) }
    {
        self.table.shared.load::<Looks>(&mut pass.seat, shard)
    }

    /// Two passes see the histories of all shards together. Both then have the same history of each.
    pub fn meet(&self, one: &mut Pass, two: &mut Pass)
        requires table { (one.old.table ≡ self.now) × (two.old.table ≡ self.now) }
        ensures one { one.new ≡ record one.old {
          caller =
              with_seen one.old.caller one.new.caller.seen;
        } }
        ensures two { two.new ≡ record two.old {
          caller =
              with_seen two.old.caller two.new.caller.seen;
        } }
        ensures met { HaveMet one.old.caller two.old.caller one.old.caller.about.shards
            one.new.caller.seen
            two.new.caller.seen }
    {
        let shared = &self.table.shared;
        let blank = shared.split_seat::<Gives>(&mut one.seat);
        let guest = mem::replace(&mut two.seat, blank);
        shared.join_seat::<Sits>(&mut one.seat, guest);
        look_together(shared, &mut one.seat, one.shards);
        two.seat = shared.split_seat::<Leaves>(&mut one.seat);
    }
}

// Two passes in one seat see each shard's history.
fn look_together(shared: &Steps, seat: &mut ViewSeat, shards: usize)
    requires seat { seat.old.table_id ≡ shared.now.table_id }
    requires passes { seat.old.me
        ≡ (pair_of (caller_in seat.old.me.0.role) (caller_in seat.old.me.0.guest), []) }
    requires shards { ((caller_in seat.old.me.0.role).about.shards ≡ shards)
        × (shards ≤ shared.now.table_id.words) }
    ensures table { seat.new.table_id ≡ seat.old.table_id }
    ensures passes { seat.new.me
        ≡ (
          pair_of (with_seen (caller_in seat.old.me.0.role) (caller_in seat.new.me.0.role).seen)
              (with_seen (caller_in seat.old.me.0.guest) (caller_in seat.new.me.0.guest).seen),
          [],
        ) }
    ensures met { HaveMet (caller_in seat.old.me.0.role) (caller_in seat.old.me.0.guest) shards
        (caller_in seat.new.me.0.role).seen (caller_in seat.new.me.0.guest).seen }
{
    for shard in 0..shards {
        shared.load::<Meets>(seat, shard);
    }
}
