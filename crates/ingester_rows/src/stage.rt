//! What the lines of a row of calls do.

use crate::together::Together;
use anyhow::Result;
use call_rows::LoneStage;
use rows::{Row, Said, word_of};
use std::alloc::Global;
use std::sync::Wait;
use std::thread::Threads;

/// Does what the lines of a row say. At first there is one shard over empty slots in memory, with the limits of the
/// profile, a capacity of 4,096, one pass, and the tenant `t`; stream S is `{a="S"}`.
///
/// - `shards N`, `passes N`, `capacity N`, `line N`, `half_age N`, `max_old N`, `max_ahead N`: settings of the next
///   opening; `shards` makes all slots empty
/// - `slot SHARD SLOT TEXT`: a fresh slot on which these bytes are synced; here and in `write` pieces stand between
///   bars, and `COUNT*TEXT` is a text COUNT times
/// - `write SHARD SLOT AT TEXT`: writes and syncs bytes
/// - `fail SHARD SLOT N`, `stop SHARD SLOT N`: the Nth device call from now fails; that one and all later ones
/// - `open`, `open alone`: an ingester over all slots; the only shard without one. Says nothing, or `refused: WHY`
///   and the states
/// - `open apart`: the only shard alone, and then the gathered calls as a group, at most 63, each by a pass of its
///   own that makes no other call. Says what `group` says alone
/// - `opens`, `opens alone`, `opens apart`: the same, and closes again where it is not refused
/// - `push S NOW ENTRY..`, `read S [FROM TO]`, `trim S BOUND`: a call. An entry is `TIME:LINE`, or `TIME*COUNT:LINE`
///   for the text COUNT times. Says `verdict ..`, `entries ..`, or the reply's or fault's name
/// - `with CALL`, `with* FROM TO CALL`: gathers a call for the next group; a call for each number from FROM to TO,
///   which stands in place of `#`
/// - `group`: makes the gathered calls together, at most 64, or alone as a group. Says what became of each, equal
///   answers in a row as `63 times ..`, and alone then `turn of N calls: WHY` for each turn: `most`, `last`, `full`
///   or `memory`
/// - `each CALL`, `turn`: each pass makes the call in its turn (equal answers in a row are `63 times ..`); the next
///   pass makes the calls
/// - `look [SHARD]`: `steps N`; alone also ` marked`
/// - `close`: for each shard, in order: `steps N segment GENERATION LENGTH calls CALLS CALLS slots LENGTH LENGTH[
///   marked]`. ` of version 1` stands after the segment's length if it is; `no segment` if there is none, the fault
///   if it is refused, `unopened` for `steps` after a refusal. Calls are writes and syncs since the opening; equal
///   lines in a row are `N times ..`
/// - `bytes SHARD SLOT FROM`: what stands in a slot from there on, with escapes
/// - `crash S VALUE..`: what a read of S gives of each content that a crash may leave, with these values for unsynced
///   bytes (one shard)
/// - `fails CALL`, `stops CALL`, `fails group`, `stops group`: makes the call, or the gathered calls as a group, and
///   says its answer; and for each slot what becomes of it where that slot doesn't work at its 1st, 2nd, .. device
///   call: `unopened`, `before`, `after`, `before or after`, `another state`, `nothing`, `answered`. It is `changed`
///   if an opening that fails changes a byte. It `goes on` if a call is unavailable, but a change of its group is
///   not, or the same calls, their reads and a trim after it are not, or these reach a slot, or the history has no
///   mark. Each content that a crash may then leave is opened: with each of 0, 1, 127 and 255 for an unsynced byte
///   where that is no more than 8 contents, otherwise with 0, 1 and 255 for all
/// - `contents`: how many contents the row's `fails` and `stops` opened
pub fn take_row<R>(rt: &R, row: &Row<'_>, said: &mut Said) -> Result<()>
where
    R: Threads + Wait + AllocGlobal + Copy + Send + Sync + 'static,
{
    let mut stage = Stage::new(rt.alloc())?;
    for line in row.given.iter() {
        stage.take_line(rt, line, said)?;
    }
    Ok(())
}

/// What a row has made so far.
#[derive(Drop)]
struct Stage {
    alloc: Global,
    /// Settings, slots, gathered calls, and a shard without an ingester.
    lone: LoneStage,
    /// The ingester, where it is open.
    together: Option<Box<Together>>,
}

impl Stage {
    /// One shard with empty slots.
    fn new(alloc: Global) -> Result<Stage> {
        Ok(Stage {
            alloc,
            lone: LoneStage::new(alloc)?,
            together: None,
        })
    }

    /// Does what a line asks for, and appends what is to be said to it.
    fn take_line<R>(&mut self, rt: &R, line: &str, said: &mut Said) -> Result<()>
    where
        R: Threads + Wait + Copy + Send + Sync + 'static,
    {
        let (word, rest) = word_of(line);
        match word {
            "open" if rest.is_empty() => self.open(rt, said),
            "opens" if rest.is_empty() => {
                self.open(rt, said)?;
                if self.together.is_some() {
                    self.close(rt, said)?;
                }
                Ok(())
            }
            "close" if self.together.is_some() => self.close(rt, said),
            _ => self.take_opened(rt, line, said),
        }
    }

    /// An ingester over all slots.
    fn open<R>(&mut self, rt: &R, said: &mut Said) -> Result<()>
    where
        R: Threads + Wait + Copy + Send + Sync + 'static,
    {
        let slots = self.lone.shards.take_all()?;
        match Together::open(rt, self.alloc, slots, self.lone.settings)? {
            Ok(together) => {
                self.together = Some(Box::new(self.alloc, together)?);
                Ok(())
            }
            Err((fault, slots)) => {
                said.tell(format_args!("refused: {fault}\n"));
                self.lone.shards.put_back(slots, &[], said)
            }
        }
    }

    /// Ends the ingester, and says what is left of each shard.
    fn close<R: Wait>(&mut self, rt: &R, said: &mut Said) -> Result<()> {
        let Some(together) = self.together.take() else {
            return Ok(());
        };
        let (slots, ended) = Box::into_inner(together).close(rt, self.alloc)?;
        self.lone.shards.put_back(slots, &ended, said)
    }

    /// What is done with the ingester that is open; or with what needs none.
    fn take_opened<R: Wait>(&mut self, rt: &R, line: &str, said: &mut Said) -> Result<()> {
        let Some(together) = &mut self.together else {
            return self.lone.take_line(line, said);
        };
        match word_of(line).0 {
            "group" => {
                let calls = self.lone.take_gathered();
                together.call_all(rt, self.alloc, &calls, said)
            }
            "push" | "read" | "trim" | "each" | "look" | "turn" | "end_owners" => {
                together.take_line(rt, self.alloc, line, said)
            }
            _ => self.lone.take_line(line, said),
        }
    }
}
