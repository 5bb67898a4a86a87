//! Rows of disks and logs.

use crate::fixture::Fixture;
use anyhow::{Context, Result};
use rows::{Row, Said};
use std::fs::File;
use std::rt::Files;

/// Does what the lines of a row say, and appends what is said to it.
///
/// Of a disk:
///
/// - `memory ROOM CALLS WRITTEN`: an empty disk in memory with this room
/// - `folder PATH`, `remove PATH`: makes an empty folder; removes it with what is in it
/// - `file PATH`, `drop`: the disk over a file from here on, or why it isn't opened; no disk
/// - `write AT BYTES`, `sync`, `len`, `read AT LENGTH`: calls; of a read how many bytes, and the buffer, which held
///   09
/// - `six`: a write, a sync, the length, a read, a write, a sync: which of them fail
/// - `is BYTES`: whether it has just these
/// - `fail N`, `stop N`, `calls`: of a disk in memory
/// - `images VALUES MAX [FROM]`: what a crash may leave, in hex or `COUNT*HEX`; with FROM what stands from there on,
///   if all before is as read
/// - `faults`: the text of each
///
/// Of a log over two slots:
///
/// - `slot SLOT BYTES`: this slot on a disk on which these bytes are synced; `-`: nothing was ever written
/// - `on SLOT WORDS`: a call on the disk of a slot of a log that isn't open
/// - `open [SHARD COUNT CAPACITY]` (if left out, 0 1 200): the generation and what each stream has, or why it isn't
///   opened
/// - `append BYTES`, `roll BYTES`, `fits COUNT`, `log`, `close`: calls, and what they say
/// - `crash SLOT VALUES MAX PLACE`: what a crash may leave of a slot: of contents that follow one another and are
///   alike how many and how long, the byte at a place, whether the others are as a read gives, and what is opened
///
/// Of a segment of the only shard:
///
/// - `records BYTES`: reads the records in a slot of these bytes: the generation, how many records there are, and the
///   offset of the closing gate; or `closed`; or the fault. The disk then has one block of them all, as it is written
///   after an open gate
/// - `streams BYTES`: reads the segment whole: its generation, the offset of its closing gate, and what each stream has;
///   or `closed`; or the fault
///
/// Bytes are hex digits, `COUNT*HEX`, `-` (none), `segment` and `frame` (the example, which stands in `bytes`),
/// `segment_with_pair` and `frame_with_pair` (that of an entry with the metadata `k=v`), `segment_of_1` and
/// `frame_of_1` (the example in version 1, where an entry ends with its line), and changes of what stands so far:
/// `cut:COUNT`, `from:COUNT`, `at:PLACE=HEX`.
pub fn take_row<R: Files<File = File> + AllocGlobal>(
    rt: &R,
    row: &Row<'_>,
    said: &mut Said,
) -> Result<()> {
    let mut fixture = Fixture::new();
    take_lines(rt, row, &mut fixture, said)
}

fn take_lines<R: Files<File = File> + AllocGlobal>(
    rt: &R,
    row: &Row<'_>,
    fixture: &mut Fixture,
    said: &mut Said,
) -> Result<()> {
    for line in &row.given {
        fixture
            .take_line(rt, line, said)
            .context(format_args!("at {line}"))?;
    }
    Ok(())
}
