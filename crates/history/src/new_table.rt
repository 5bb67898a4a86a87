//! How a table is made, with the books and the passes of its opening.
ghost use Rattle.std.specs.Prelude.{◌≡◌, ◌+◌, ◌<◌, ◌≤◌, [], length, IfOk};
ghost use Rattle.std.specs.Arc.{arc_value};
ghost use Rattle.labels.specs.Shards.{max_shards};
ghost use Rattle.history.specs.Rule.{opener};
ghost use Rattle.history.specs.Handles.{about_of, about_in, fresh_books, fresh_passes};
ghost use Rattle.history.specs.Histories.{max_passes};

use crate::book::Book;
use crate::handles::Pass;
use crate::history::History;
use crate::table::{Board, NamesOpening, Naming, NextBook, NextPass, ViewSeat};
use crate::views::Sizes;
use accept::{Image, Limits};
use atomic_table::Table;
use std::alloc::{AllocError, Global};
use std::marker::Brand;
use std::sync::Arc;

impl History {
    /// Opens histories over these bases, one for each shard, with a book each and with this many passes. All are empty.
    /// `capacity` is how many bytes a segment may have. An `Err` means that there was no memory.
    pub fn new(
        alloc: Global,
        bases: &[Image],
        passes: u32,
        limits: Limits,
        capacity: u64,
    ) -> Result<(History, Vec<Book>, Vec<Pass>), AllocError>
        requires shards { (0 < length bases.now) × (length bases.now ≤ max_shards) }
        requires passes { passes ≤ max_passes }
        ensures books { IfOk result (λ r. r.1.items
            ≡ fresh_books r.0 (about_of bases.now passes limits capacity) (length bases.now)) }
        ensures passes { IfOk result (λ r. r.2.items
            ≡ fresh_passes r.0 (about_of bases.now passes limits capacity) passes) }
    {
        opened::<Brand>(alloc, bases, passes, limits, capacity)
    }
}

fn opened<J: Naming>(
    alloc: Global,
    bases: &[Image],
    passes: u32,
    limits: Limits,
    capacity: u64,
) -> Result<(History, Vec<Book>, Vec<Pass>), AllocError>
    requires shards { (0 < length bases.now) × (length bases.now ≤ max_shards) }
    requires passes { passes ≤ max_passes }
    requires about { J.about ≡ about_of bases.now passes limits capacity }
    ensures books { IfOk result (λ r. r.1.items ≡ fresh_books r.0 J.about (length bases.now)) }
    ensures passes { IfOk result (λ r. r.2.items ≡ fresh_passes r.0 J.about passes) }
{
    let _ = limits;
    let _ = capacity;
    deal::<J>(alloc, bases.len(), passes)
}

// The table of an opening with these numbers of shards and passes. All its books and passes are given out.
pub(crate) fn deal<J: Naming>(
    alloc: Global,
    shards: usize,
    passes: u32,
) -> Result<(History, Vec<Book>, Vec<Pass>), AllocError>
    requires shards { (0 < shards) × (shards ≤ max_shards) × (J.about.shards ≡ shards) }
    requires passes { (passes ≤ max_passes) × (J.about.passes ≡ passes) }
    ensures books { IfOk result (λ r. r.1.items ≡ fresh_books r.0 J.about shards) }
    ensures passes { IfOk result (λ r. r.2.items ≡ fresh_passes r.0 J.about passes) }
{
    let (table, mut seat) = open::<J>(alloc, shards, passes)?;
    let table = Arc::new(alloc, table)?;
    let books = deal_books(alloc, &table, &mut seat, shards)?;
    let passes = deal_passes(alloc, &table, &mut seat, shards, passes)?;
    Ok((History { table }, books, passes))
}

fn open<J: Naming>(
    alloc: Global,
    shards: usize,
    passes: u32,
) -> Result<(Board, ViewSeat), AllocError>
    requires shards { (0 < shards) × (shards ≤ max_shards) × (J.about.shards ≡ shards) }
    requires passes { (passes ≤ max_passes) × (J.about.passes ≡ passes) }
    ensures { IfOk result (λ r. (r.0.shared.table_id.words ≡ shards + passes)
        × (r.1.table_id ≡ r.0.shared.table_id)
        × (r.1.me ≡ (opener J.about 0 0, []))) }
{
    let sizes = Sizes {
        shards,
        passes: passes as usize,
    };
    let zeros = vec![in alloc; 0; sizes.shards + sizes.passes]?;
    let (table, mut seat): (Board, ViewSeat) = Table::of_words(alloc, &zeros, &sizes)?;
    table.shared.load::<NamesOpening<J>>(&mut seat, 0);
    Ok((table, seat))
}

fn deal_books(
    alloc: Global,
    table: &Arc<Board>,
    seat: &mut ViewSeat,
    shards: usize,
) -> Result<Vec<Book>, AllocError>
    requires table { (seat.old.table_id ≡ (arc_value table.now).shared.table_id)
        × (seat.old.table_id.words ≡ (about_in seat.old.me.0.role).shards
        + (about_in seat.old.me.0.role).passes) }
    requires seat { seat.old.me ≡ (opener (about_in seat.old.me.0.role) 0 0, []) }
    requires shards { (0 < shards) × ((about_in seat.old.me.0.role).shards ≡ shards) }
    ensures books { IfOk result (λ b. b.items
        ≡ fresh_books seat.old.table_id (about_in seat.old.me.0.role) shards) }
    ensures table { seat.new.table_id ≡ seat.old.table_id }
    ensures seat { IfOk result (λ b. seat.new.me
        ≡ (opener (about_in seat.old.me.0.role) shards 0, [])) }
{
    let shared = &table.shared;
    let mut books = Vec::with_capacity(alloc, shards)?;
    for shard in 0..shards {
        let book = Book {
            shard,
            table: Arc::try_clone(table)?,
            seat: shared.split_seat::<NextBook>(seat),
        };
        books.push(book)?;
    }
    Ok(books)
}

fn deal_passes(
    alloc: Global,
    table: &Arc<Board>,
    seat: &mut ViewSeat,
    shards: usize,
    passes: u32,
) -> Result<Vec<Pass>, AllocError>
    requires table { (seat.old.table_id ≡ (arc_value table.now).shared.table_id)
        × (seat.old.table_id.words ≡ shards + passes) }
    requires seat { seat.old.me ≡ (opener (about_in seat.old.me.0.role) shards 0, []) }
    requires shards { (0 < shards) × ((about_in seat.old.me.0.role).shards ≡ shards)
        × (shards ≤ max_shards) }
    requires passes { ((about_in seat.old.me.0.role).passes ≡ passes) × (passes ≤ max_passes) }
    ensures { IfOk result (λ p. p.items ≡ fresh_passes seat.old.table_id
        (about_in seat.old.me.0.role) passes) }
{
    let shared = &table.shared;
    let mut dealt = Vec::with_capacity(alloc, passes as usize)?;
    for pass in 0..passes {
        let pass = Pass {
            shards,
            word: shards + pass as usize,
            last: 0,
            calls: 0,
            closed: false,
            seat: shared.split_seat::<NextPass>(seat),
        };
        dealt.push(pass)?;
    }
    Ok(dealt)
}
