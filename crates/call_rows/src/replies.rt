//! The answers to calls, as words of rows.

use accept::{CallFault, Entry, Outcome, Reply};
use rows::{Said, only_character};
use std::fmt::Display;

/// A line that is longer than this and repeats one character is written by its length.
const LONG: usize = 8;

/// Says the answer to a call on a shard alone, or why it was refused.
pub fn write_outcome<F: Display>(outcome: &Result<Reply, F>, into: &mut Said) {
    match outcome {
        Ok(reply) => write_reply(reply, into),
        Err(fault) => into.tell(format_args!("{fault}")),
    }
}

/// Says the answer to a call on an ingester, or the name of its fault.
pub fn write_told(outcome: &Result<Reply, CallFault>, into: &mut Said) {
    match outcome {
        Ok(reply) => write_reply(reply, into),
        Err(fault) => into.tell(format_args!("{fault:?}")),
    }
}

/// Says an answer: `verdict` and the outcomes, `entries` and the entries as a push gives them, or its name.
pub fn write_reply(reply: &Reply, into: &mut Said) {
    match reply {
        Reply::Verdict(outcomes) => write_outcomes(outcomes.as_slice(), into),
        Reply::Entries(entries) => write_entries(entries.as_slice(), into),
        other => into.tell(format_args!("{other:?}")),
    }
}

fn write_outcomes(outcomes: &[Outcome], into: &mut Said) {
    into.put("verdict");
    for outcome in outcomes {
        into.tell(format_args!(" {outcome:?}"));
    }
}

fn write_entries(entries: &[Entry], into: &mut Said) {
    into.put("entries");
    for entry in entries {
        write_entry(entry, into);
    }
}

fn write_entry(entry: &Entry, into: &mut Said) {
    let (time, line) = (entry.time, entry.line.as_str());
    let count = line.len();
    match only_character(line) {
        Some(character) if count > LONG => into.tell(format_args!(" {time}*{count}:{character}")),
        _ => {
            into.tell(format_args!(" {time}:"));
            into.escape(line.as_bytes());
        }
    }
    into.pairs(entry.meta.as_slice());
}
