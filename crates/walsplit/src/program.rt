//! The program `walsplit`: the slots of a folder under another number of shards.
ghost use Rattle.std.specs.Prelude.{◌≡◌, ◌⊎◌, ◌↔◌, ◌<◌, ◌≤◌, ℕ, List, IfOk, IfErr, OnOk, option_map, vec_len};
ghost use Rattle.std.specs.Io.KnownBytes.{Appends};
ghost use Rattle.labels.specs.Shards.{max_shards};
ghost use Rattle.disk.specs.declared.file.FileDisk.{FileDisk};
ghost use Rattle.programs.specs.declared.watched.Watched.{Watched};
ghost use Rattle.programs.specs.Words.{GivesCapacity};
ghost use Rattle.split.specs.declared.fault.SplitFault.{SplitFault};
ghost use Rattle.split.specs.declared.splitting.Slots.{Slots};
ghost use Rattle.split.specs.Splits.{AreSplit, IsCause};
ghost use Rattle.walsplit.specs.Words.{GiveSplit};
ghost use Rattle.walsplit.specs.Endings.{IsDivided, SplitEnds, split_line};

use crate::announced::{Side, announce};
use crate::asked::split_in;
use crate::beside::{give_name, unfinished, unopened};
use crate::found::{has_slots, shards_in};
use crate::said::SplitWords;
use crate::walsplit_fault::WalsplitFault;
use disk::{Disk, FileDisk};
use programs::{Watched, capacity_in, open_slots, terminal_in};
use split::split;
use std::alloc::Global;
use std::fs::{File, Files};
use std::io::{Stderr, Write};
use wal::Capacity;

/// A slot of a folder.
type Slot = Watched<FileDisk>;

/// Runs `walsplit OLD NEW COUNT`, and gives its exit status. `setting` is the capacity of a slot by the environment.
///
/// Writes the streams of the slots of OLD into slots of COUNT shards in NEW, each to the shard of its key among COUNT.
/// No server may have OLD open meanwhile. Then it writes `split <m> to <n>`, where m is the number of shards of which
/// OLD has slots. No slot of OLD is written.
///
/// A missing NEW is written under the name `NEW.unfinished-1`, or with a greater number, and gets its own name at the
/// end. So it is there as a whole or not at all. A NEW that exists is written in place. A NEW that has slots is
/// refused, and so is OLD itself, by any path.
///
/// Status 0: the split is on the disk. 1: no shards, a missing slot, a NEW with slots, no room in a new shard, or a
/// fault while running. 2: wrong words, or a wrong setting. 3: the content of the old slots is refused. After any
/// status but 0 what was made must be given up. A fault is one line of `errors`. Where `marks` are a terminal, lines
/// there say which shard is read or written. Before them comes a line for a NEW that exists: it may have to be given
/// up.
pub fn run_walsplit<R: Files<File = File>, W: Write, E: Write>(
    rt: &R,
    alloc: Global,
    words: &[String],
    setting: Option<&str>,
    output: &mut W,
    errors: &mut E,
    marks: Option<Stderr>,
) -> u8
    ensures status { result ≤ 3 }
    ensures usage { (result ≡ 2)
        ↔ (¬ (GiveSplit words.now × GivesCapacity (option_map (λ s. s.now) setting.entry))) }
    ensures ends { SplitEnds ⟦<Slot as Disk>⟧.sight ⟦<Slot as Disk>⟧.follows words.now
        (option_map (λ s. s.now) setting.entry)
        (W.contents output.old) (W.contents output.new) result }
{
    let Some(words) = split_in(words) else {
        let _ = writeln!(errors, "usage: walsplit OLD NEW COUNT");
        return 2;
    };
    let Some(capacity) = capacity_in(setting) else {
        let _ = writeln!(
            errors,
            "NEEDLEAZURE_CAPACITY is not a number of bytes from 4096 to 1073741824"
        );
        return 2;
    };
    if let Err(stopped) = split_and_print(rt, alloc, words, capacity, output, marks) {
        let _ = writeln!(errors, "{stopped}");
        return stopped.status();
    }
    0
}

fn split_and_print<R: Files<File = File>, W: Write>(
    rt: &R,
    alloc: Global,
    words: SplitWords<'_>,
    capacity: Capacity,
    output: &mut W,
    marks: Option<Stderr>,
) -> Result<(), WalsplitFault>
    ensures said { OnOk result ((shards : ℕ) × (1 ≤ shards) × (shards ≤ max_shards)
        × IsDivided ⟦<Slot as Disk>⟧.sight ⟦<Slot as Disk>⟧.follows capacity shards
        words.entry.shards
        × Appends (W.contents output.old) (W.contents output.new)
        (split_line shards words.entry.shards)) }
    ensures stopped { IfErr result (λ stop. (stop ≡ WalsplitFault.Output)
        ⊎ (W.contents output.new ≡ W.contents output.old)) }
{
    let old_shards = split_folder(rt, alloc, words, capacity, marks)?;
    let new_shards = words.shards;
    let Ok(()) = writeln!(output, "split {old_shards} to {new_shards}") else {
        return Err(WalsplitFault::Output);
    };
    let Ok(()) = output.flush() else {
        return Err(WalsplitFault::Output);
    };
    Ok(())
}

// Splits what is in the old folder, and gives its number of shards.
fn split_folder<R: Files<File = File>>(
    rt: &R,
    alloc: Global,
    words: SplitWords<'_>,
    capacity: Capacity,
    marks: Option<Stderr>,
) -> Result<u32, WalsplitFault>
    ensures some { IfOk result (λ shards. (1 ≤ shards) × (shards ≤ max_shards)) }
    ensures divided { IfOk result (λ shards. IsDivided ⟦<Slot as Disk>⟧.sight
        ⟦<Slot as Disk>⟧.follows capacity shards words.entry.shards) }
{
    let SplitWords {
        old_folder,
        new_folder,
        shards,
    } = words;
    let old_shards = shards_in(rt, alloc, old_folder)?;
    if has_slots(rt, alloc, new_folder, 0)? {
        return Err(WalsplitFault::HasSlots(new_folder.to_string(alloc)?));
    }
    let terminal = terminal_in(marks);
    let unfinished = unfinished(rt, alloc, new_folder)?;
    let folder = match &unfinished {
        Some(path) => path.as_str(),
        None => {
            warn(terminal, new_folder);
            new_folder
        }
    };
    let old = open_slots(rt, alloc, old_folder, old_shards, None)?;
    let new = match open_slots(rt, alloc, folder, shards, None) {
        Ok(new) => new,
        Err(fault) => return Err(unopened(alloc, fault, folder, new_folder)?),
    };
    split_opened(alloc, old, new, capacity, terminal)?;
    if let Some(path) = &unfinished {
        give_name(rt, alloc, path.as_str(), new_folder)?;
    }
    Ok(old_shards)
}

// Splits what these slots hold, and drops them. Where a terminal is given, they say there which shard is worked on.
fn split_opened(
    alloc: Global,
    old: Vec<[Slot; 2]>,
    new: Vec<[Slot; 2]>,
    capacity: Capacity,
    terminal: Option<Stderr>,
) -> Result<(), WalsplitFault>
    requires old { (0 < vec_len old) × (vec_len old ≤ max_shards) }
    requires new { (0 < vec_len new) × (vec_len new ≤ max_shards) }
    ensures { OnOk result ((old_back : List (List (Watched FileDisk)))
        × (new_back : List (List (Watched FileDisk)))
        × AreSplit ⟦<Slot as Disk>⟧.sight ⟦<Slot as Disk>⟧.follows capacity old.items old_back
        new.items new_back) }
{
    let old = announce(alloc, old, Side::Old, terminal)?;
    let new = announce(alloc, new, Side::New, terminal)?;
    split_slots(alloc, old, new, capacity)
}

// Splits what these slots hold, and drops them.
fn split_slots<D: Disk + Drop>(
    alloc: Global,
    old: Vec<[D; 2]>,
    new: Vec<[D; 2]>,
    capacity: Capacity,
) -> Result<(), WalsplitFault>
    requires old { (0 < vec_len old) × (vec_len old ≤ max_shards) }
    requires new { (0 < vec_len new) × (vec_len new ≤ max_shards) }
    ensures done { OnOk result ((backs : Slots D)
        × AreSplit D.sight D.follows capacity old.items backs.old.items new.items backs.new.items) }
    ensures cause { IfErr result (λ stop. (fault : SplitFault) × (backs : Slots D)
        × (stop ≡ WalsplitFault.Split fault)
        × IsCause D.sight D.follows fault capacity old.items backs.old.items new.items
        backs.new.items) }
{
    match split(alloc, old, new, capacity) {
        Ok(_slots) => Ok(()),
        Err((fault, _slots)) => Err(WalsplitFault::Split(fault)),
    }
}

// Nothing tells later whether a folder that existed is whole.
fn warn(terminal: Option<Stderr>, folder: &str) {
    if let Some(mut terminal) = terminal {
        let _ = writeln!(
            terminal,
            "{folder} is written in place: an unfinished one is to be given up"
        );
    }
}
