ghost use Rattle.std.specs.Prelude.{◌↔◌, IsTrue};
ghost use Rattle.accept.specs.OneStream.{AreTimes};

use crate::entry_words::write_entry;
use crate::numbers::number_of;
use crate::texts;
use accept::{END_OF_TIME, Entry, Limits, Line, Meta, Outcome, StreamState, TrimRefusal};
use anyhow::{Context, Result, bail};
use rows::{Row, Said, split_pairs, text_times, word_of};
use std::alloc::Global;

/// The greatest time, and the greatest that a clock may tell.
const MOST: u64 = END_OF_TIME - 1;

/// A stream, and the limits of its calls.
#[derive(Drop)]
struct StreamFixture {
    alloc: Global,
    limits: Limits,
    stream: StreamState,
}

/// Runs a row of calls on a stream. At first it is new, and has the profile's limits.
///
/// - `limits NAME=NUMBER ..`: the profile's limits except these (`line`, `half_age`, `max_old`, `max_ahead`), and
///   whether they are lawful
/// - `push NOW ENTRY ..`: judges the entries at this clock, stores those to store, and says what became of each
/// - `judge NOW ENTRY ..`: the same without storing: what would become of each, and which entries are to store
/// - `read FROM TO`: `found ..`, the entries with FROM <= time < TO
/// - `buckets FROM TO`: how many buckets such a read looks into
/// - `trim BOUND`: `removed N`, `above oldest` or `no such stream`
/// - `state`: whether the stream is new, its highest time, the entry stored last, and the kept ones
/// - `reopen`: takes the stream apart, and makes it of its parts again
/// - `labels {NAME=VALUE,..}`: the canonical text of a set of labels, or its fault. Of a text of more than 200 bytes
///   its length is said
/// - `meta {NAME=VALUE,..}`: metadata of pairs in whatever order: it, or its fault; `of no line` after it if no line
///   may have it
/// - `faults`: the texts of some faults of labels, and of one of segments
///
/// An entry is `TIME:LINE`, or `TIME*COUNT:LINE` for the line COUNT times, with `{NAME=VALUE,..}` after it if it has
/// metadata.
pub fn take_row(alloc: Global, row: &Row<'_>, said: &mut Said) -> Result<()> {
    StreamFixture::new(alloc).take_lines(row, said)
}

/// The stream that has what a new one stores of a push, `NOW ENTRY ..`.
pub fn stream_of(alloc: Global, push: &str) -> Result<StreamState> {
    let mut opened = StreamFixture::new(alloc);
    opened.judge(push, true, &mut Said::new(alloc))?;
    Ok(opened.stream)
}

impl StreamFixture {
    /// A new stream under the profile's limits.
    fn new(alloc: Global) -> StreamFixture {
        StreamFixture {
            alloc,
            limits: Limits::PROFILE,
            stream: StreamState::new(alloc),
        }
    }

    fn take_lines(&mut self, row: &Row<'_>, said: &mut Said) -> Result<()> {
        for line in &row.given {
            self.take_line(line, said)?;
        }
        Ok(())
    }

    fn take_line(&mut self, line: &str, said: &mut Said) -> Result<()> {
        let (word, rest) = word_of(line);
        match word {
            "limits" => self.set_limits(rest, said),
            "push" => self.judge(rest, true, said),
            "judge" => self.judge(rest, false, said),
            "read" => self.read(rest, said),
            "buckets" => self.say_buckets(rest, said),
            "trim" => self.trim(rest, said),
            "state" => self.say_state(said),
            "reopen" => self.reopen(said),
            _ => texts::take_word(self.alloc, word, rest, said),
        }
    }

    /// Takes these limits, and says whether they are lawful.
    fn set_limits(&mut self, words: &str, said: &mut Said) -> Result<()> {
        self.limits = limits_of(words)?;
        let lawful = self.limits.are_lawful();
        said.put(if lawful { "lawful\n" } else { "not lawful\n" });
        Ok(())
    }

    /// Says what becomes of each entry, and either stores those to store or says them.
    fn judge(&mut self, words: &str, store: bool, said: &mut Said) -> Result<()> {
        let (now, words) = word_of(words);
        let now = now.parse::<u64>()?;
        let entries = entries_of(self.alloc, words)?;
        if !self.limits.are_lawful() || now > MOST || !are_times(&entries) {
            said.put("a number is out of its bounds\n");
            return Ok(());
        }
        let outcomes = self.stream.judge(self.alloc, now, &entries, &self.limits)?;
        say_outcomes(outcomes.as_slice(), said);
        let reserved = self
            .stream
            .reserve(self.alloc, &entries, outcomes.as_slice())?;
        if store {
            self.stream.store(reserved);
        } else {
            said.put("to store");
            say_entries(reserved.as_slice(), said);
        }
        Ok(())
    }

    fn read(&self, words: &str, said: &mut Said) -> Result<()> {
        let (from, to) = word_of(words);
        let found = self.stream.read(self.alloc, from.parse()?, to.parse()?)?;
        said.put("found");
        say_entries(found.as_slice(), said);
        Ok(())
    }

    /// Says how many buckets a read would look into.
    fn say_buckets(&self, words: &str, said: &mut Said) -> Result<()> {
        let (from, to) = word_of(words);
        let met = self.stream.buckets_met(from.parse()?, to.parse()?);
        said.tell(format_args!("met {met}\n"));
        Ok(())
    }

    fn trim(&mut self, bound: &str, said: &mut Said) -> Result<()> {
        match self.stream.trim(bound.parse()?, &self.limits) {
            Ok(count) => said.tell(format_args!("removed {count}\n")),
            Err(TrimRefusal::AboveOldest) => said.put("above oldest\n"),
            Err(TrimRefusal::NoSuchStream) => said.put("no such stream\n"),
        }
        Ok(())
    }

    fn say_state(&self, said: &mut Said) -> Result<()> {
        let stream = &self.stream;
        let age = if stream.is_new() { "new" } else { "not new" };
        let highest = stream.highest();
        said.tell(format_args!("{age}, highest {highest}, last"));
        match stream.last() {
            Some(entry) => say_entry(entry, said),
            None => said.put(" nothing"),
        }
        said.put(", kept");
        say_kept(self.alloc, stream, said)
    }

    /// Takes the stream apart, and makes it from its parts again.
    fn reopen(&mut self, said: &mut Said) -> Result<()> {
        if self.stream.is_new() {
            said.put("a new stream has no parts\n");
            return Ok(());
        }
        let image = self.stream.to_image(self.alloc)?;
        self.stream = StreamState::of(image);
        Ok(())
    }
}

/// The profile's limits, except those that the words give as `NAME=NUMBER`.
fn limits_of(words: &str) -> Result<Limits> {
    let mut limits = Limits::PROFILE;
    for word in words.split_ascii_whitespace() {
        set_limit(&mut limits, word)?;
    }
    Ok(limits)
}

fn set_limit(limits: &mut Limits, word: &str) -> Result<()> {
    let (name, number) = word.split_once('=').unwrap_or((word, ""));
    match limit_of(limits, name) {
        Some(limit) => {
            *limit = number.parse()?;
            Ok(())
        }
        None => bail!("no limit: {word}"),
    }
}

/// The limit of this name.
fn limit_of<'a>(limits: &'a mut Limits, name: &str) -> Option<&'a mut u64> {
    match name {
        "line" => Some(&mut limits.line),
        "half_age" => Some(&mut limits.half_age),
        "max_old" => Some(&mut limits.max_old),
        "max_ahead" => Some(&mut limits.max_ahead),
        _ => None,
    }
}

/// The entries of words.
fn entries_of(alloc: Global, words: &str) -> Result<Vec<Entry>> {
    let mut entries = Vec::new(alloc);
    for word in words.split_ascii_whitespace() {
        entries.push(entry_of(alloc, word)?)?;
    }
    Ok(entries)
}

/// The entry of a word.
fn entry_of(alloc: Global, word: &str) -> Result<Entry> {
    let (time, text) = word.split_once(':').context("no entry")?;
    let (time, count) = time.split_once('*').unwrap_or((time, "1"));
    let (time, count) = (number_of(time)?, number_of(count)?);
    let (text, pairs) = split_pairs(alloc, text)?;
    let meta = Meta::new(alloc, pairs)?;
    let line = Line::new(text_times(alloc, text, count)?);
    Ok(Entry { time, line, meta })
}

/// Whether each time is a lawful one.
fn are_times(entries: &[Entry]) -> bool
    ensures { IsTrue result ↔ AreTimes entries.now }
{
    entries.iter().all(|entry| entry.time <= MOST)
}

fn say_outcomes(outcomes: &[Outcome], said: &mut Said) {
    for (place, outcome) in outcomes.iter().enumerate() {
        said.put(if place == 0 { "" } else { " " });
        said.tell(format_args!("{outcome:?}"));
    }
    said.put("\n");
}

/// Ends a line with the kept entries.
fn say_kept(alloc: Global, stream: &StreamState, said: &mut Said) -> Result<()> {
    let kept = stream.kept(alloc)?;
    for entry in kept.iter() {
        say_entry(entry, said);
    }
    said.put(if kept.is_empty() { " nothing\n" } else { "\n" });
    Ok(())
}

/// Ends a line with these entries.
fn say_entries(entries: &[Entry], said: &mut Said) {
    for entry in entries {
        say_entry(entry, said);
    }
    said.put(if entries.is_empty() {
        " nothing\n"
    } else {
        "\n"
    });
}

fn say_entry(entry: &Entry, said: &mut Said) {
    said.put(" ");
    write_entry(entry, said);
}
