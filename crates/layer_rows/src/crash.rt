//! What a crash may leave of a slot, and what an opening finds in it.
use crate::bytes::bytes_of;
use crate::drive::read_all;
use crate::numbers::number_of;
use crate::slots::{EXAMPLE, SlotPair, open};
use anyhow::Result;
use memory_disk::MemDisk;
use rows::{Said, word_of};
use std::alloc::Global;

/// Contents that come one after another and are alike.
#[derive(Drop)]
struct Alike {
    count: u64,
    shortest: usize,
    longest: usize,
    text: String,
}

impl Alike {
    fn one(length: usize, text: String) -> Alike {
        Alike {
            count: 1,
            shortest: length,
            longest: length,
            text,
        }
    }

    fn say(&self, said: &mut Said) {
        let (count, shortest, longest) = (self.count, self.shortest, self.longest);
        said.tell(format_args!("{count} of {shortest} to {longest} bytes, "));
        said.put(self.text.as_str());
    }
}

/// What contents of a slot are compared with.
#[derive(Clone, Copy)]
struct Sight<'a> {
    alloc: Global,
    /// Whether they are contents of slot 0.
    is_first: bool,
    /// What a read gives of this slot, and of the other one.
    seen: &'a [u8],
    other: &'a [u8],
    /// The place where any byte may be.
    place: usize,
}

impl Sight<'_> {
    /// A content, and what an opening finds in it.
    fn describe(&self, content: &[u8]) -> Result<String> {
        let mut text = Said::new(self.alloc);
        self.compare(content, &mut text);
        let _ = open(self.alloc, self.slots_with(content)?, EXAMPLE, &mut text)?;
        Ok(text.end()?)
    }

    fn compare(&self, content: &[u8], said: &mut Said) {
        let place = self.place;
        match content.get(place) {
            Some(byte) => said.tell(format_args!("{byte:02x} at {place}")),
            None => said.tell(format_args!("none at {place}")),
        }
        let is_seen = content.len() == self.seen.len() && are_same_but(content, self.seen, place);
        said.put(if is_seen {
            ", else as read\n"
        } else {
            ", else other\n"
        });
    }

    fn slots_with(&self, content: &[u8]) -> Result<SlotPair> {
        if self.is_first {
            SlotPair::synced(self.alloc, content, self.other)
        } else {
            SlotPair::synced(self.alloc, self.other, content)
        }
    }

    /// Says contents. Those that come one after another and are alike are said as one.
    fn say_all(&self, contents: &[Vec<u8>], said: &mut Said) -> Result<()> {
        let mut open: Option<Alike> = None;
        for content in contents {
            let text = self.describe(content)?;
            open = Some(joined(open, content.len(), text, said));
        }
        if let Some(alike) = open {
            alike.say(said);
        }
        Ok(())
    }
}

/// `SLOT VALUES MAX PLACE`: what a crash may leave of this slot, with unsynced bytes of these values.
///
/// For contents that come one after another and are alike it appends how many there are and how long they are, which
/// byte is at the place, whether the others are as a read gives, and what an opening finds, with the other slot as a
/// read gives it.
pub fn say_crash(alloc: Global, slots: &mut SlotPair, words: &str, said: &mut Said) -> Result<()> {
    let (slot, rest) = word_of(words);
    let (values, rest) = word_of(rest);
    let (max, place) = word_of(rest);
    let place = usize::try_from(number_of(place)?)?;
    let found = images_of(alloc, slots.at(slot)?, values, max)?;
    say_found(alloc, slots, slot, place, &found, said)
}

/// Says these contents of a slot.
fn say_found(
    alloc: Global,
    slots: &mut SlotPair,
    slot: &str,
    place: usize,
    found: &[Vec<u8>],
    said: &mut Said,
) -> Result<()> {
    let is_first = slot == "0";
    let seen = read_all(alloc, slots.at(slot)?)?;
    let other = read_all(alloc, slots.at(if is_first { "1" } else { "0" })?)?;
    let sight = Sight {
        alloc,
        is_first,
        seen: &seen,
        other: &other,
        place,
    };
    sight.say_all(found, said)
}

fn images_of(alloc: Global, disk: &MemDisk, values: &str, max: &str) -> Result<Vec<Vec<u8>>> {
    let max = usize::try_from(number_of(max)?)?;
    let values = bytes_of(alloc, values)?;
    Ok(disk.images(alloc, &values, max)?)
}

/// Takes one more content in. Appends those before it where it is not like them.
fn joined(open: Option<Alike>, length: usize, text: String, said: &mut Said) -> Alike {
    match open {
        Some(mut alike) if alike.text.as_str() == text.as_str() => {
            alike.count = alike.count.saturating_add(1);
            alike.shortest = alike.shortest.min(length);
            alike.longest = alike.longest.max(length);
            alike
        }
        Some(alike) => {
            alike.say(said);
            Alike::one(length, text)
        }
        None => Alike::one(length, text),
    }
}

/// Whether bytes are the same at all places but one.
fn are_same_but(one: &[u8], other: &[u8], place: usize) -> bool {
    one.iter()
        .zip(other)
        .enumerate()
        .all(|(index, (this, that))| index == place || this == that)
}
