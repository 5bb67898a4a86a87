//! What the lines of a row do with settings, slots and a shard alone.

use crate::alone::{Alone, open_alone, open_apart, say_group, say_grouped, say_line};
use crate::calls::number_of;
use crate::contents::Contents;
use crate::crashes::{Doing, Tries, say_contents, say_trials};
use crate::gathered::Gathered;
use crate::left::FinalState;
use crate::settings::CaseSettings;
use crate::shards::Shards;
use crate::slots::FailureMode;
use anyhow::{Result, bail};
use memory_disk::MemDisk;
use rows::{Said, word_of};
use std::alloc::Global;
use std::mem;
use wal::OpenFault;

/// What a row has made so far of settings and slots, and the only shard, if it is open without an ingester.
#[derive(Drop)]
pub struct LoneStage {
    alloc: Global,
    /// The settings of the next opening.
    pub settings: CaseSettings,
    /// The slots of all shards, while nothing is opened.
    pub shards: Shards,
    alone: Option<Alone>,
    /// The calls of the next group.
    gathered: Gathered,
    /// How many contents that a crash may leave were opened by `fails` and `stops`.
    contents: u64,
}

impl LoneStage {
    /// One shard with empty slots.
    ///
    /// # Errors
    /// Want of memory.
    pub fn new(alloc: Global) -> Result<LoneStage> {
        Ok(LoneStage {
            alloc,
            settings: CaseSettings::USUAL,
            shards: Shards::new(alloc, 1)?,
            alone: None,
            gathered: Gathered::new(alloc),
            contents: 0,
        })
    }

    /// Does what a line asks for, and appends what is to be said to it.
    ///
    /// # Errors
    /// A line that can't be taken now, or want of memory.
    pub fn take_line(&mut self, line: &str, said: &mut Said) -> Result<()> {
        let (word, rest) = word_of(line);
        match word {
            "open" => self.open(rest, said),
            "close" => self.close(said),
            "opens" => {
                self.open(rest, said)?;
                if self.alone.is_some() {
                    self.close(said)?;
                }
                Ok(())
            }
            "group" => self.group(said),
            "push" | "read" | "trim" | "look" => match &mut self.alone {
                Some(shard) => say_line(shard, self.alloc, line, said),
                None => bail!("nothing is open"),
            },
            _ => self.take_closed(word, rest, said),
        }
    }

    /// Does what a line asks for that is not about what is open.
    fn take_closed(&mut self, word: &str, rest: &str, said: &mut Said) -> Result<()> {
        match word {
            "with" => self.gathered.add(self.alloc, rest),
            "with*" => self.gathered.add_each(self.alloc, rest),
            "crash" => self.crash(rest, said),
            "fails" => self.try_each(FailureMode::Fails, rest, said),
            "stops" => self.try_each(FailureMode::Stops, rest, said),
            "contents" => {
                said.tell(format_args!("{} contents\n", self.contents));
                Ok(())
            }
            "shards" => {
                self.shards = Shards::new(self.alloc, number_of(rest)?.0)?;
                Ok(())
            }
            "slot" | "write" | "fail" | "stop" | "bytes" => {
                self.shards.take_line(word, rest, said)
            }
            _ => self.settings.set(word, rest),
        }
    }

    /// `open alone`: the only shard; `open apart`: the same, and the calls that were gathered are made as a group, each
    /// by a pass of its own.
    fn open(&mut self, text: &str, said: &mut Said) -> Result<()> {
        match text {
            "alone" => self.open_alone(said),
            "apart" => self.open_apart(said),
            _ => bail!("the only shard is opened alone or apart"),
        }
    }

    fn open_alone(&mut self, said: &mut Said) -> Result<()> {
        let slots = self.shards.take_only()?;
        match open_alone(self.alloc, slots, self.settings)? {
            Ok(shard) => {
                self.alone = Some(shard);
                Ok(())
            }
            Err(refusal) => self.refuse(refusal.0, refusal.1, said),
        }
    }

    fn open_apart(&mut self, said: &mut Said) -> Result<()> {
        let calls = self.take_gathered();
        let slots = self.shards.take_only()?;
        match open_apart(self.alloc, slots, self.settings, &calls)? {
            Ok((shard, grouped)) => {
                self.alone = Some(shard);
                say_grouped(self.alloc, &grouped, said)
            }
            Err(refusal) => self.refuse(refusal.0, refusal.1, said),
        }
    }

    /// Says why the only shard was refused, and puts its slots back.
    fn refuse(&mut self, fault: OpenFault, slots: [MemDisk; 2], said: &mut Said) -> Result<()> {
        said.tell(format_args!("refused: {fault}\n"));
        self.shards.put_back(vec![in self.alloc; slots]?, &[], said)
    }

    /// `close`: says what is left of the shard.
    fn close(&mut self, said: &mut Said) -> Result<()> {
        let Some(mut shard) = self.alone.take() else {
            bail!("nothing is open");
        };
        let (steps, is_marked) = (shard.steps(), shard.is_marked());
        let slots = Box::into_inner(shard).into_slots();
        let all = vec![in self.alloc; slots]?;
        self.shards
            .put_back(all, &[FinalState { steps, is_marked }], said)
    }

    /// `group`: the calls that were gathered, as a group.
    fn group(&mut self, said: &mut Said) -> Result<()> {
        let calls = self.take_gathered();
        let Some(shard) = self.alone.take() else {
            bail!("nothing is open");
        };
        self.alone = Some(say_group(self.alloc, shard, &calls, said)?);
        Ok(())
    }

    /// Takes out the calls that were gathered.
    pub fn take_gathered(&mut self) -> Gathered {
        let none = Gathered::new(self.alloc);
        mem::replace(&mut self.gathered, none)
    }

    /// `crash STREAM VALUE..`: what a read of the stream gives of each content that a crash may leave.
    fn crash(&mut self, text: &str, said: &mut Said) -> Result<()> {
        let (alloc, settings) = (self.alloc, self.settings);
        let Some(slots) = self.shards.slots.first() else {
            bail!("the shard is open");
        };
        let (stream, values) = word_of(text);
        let contents = Contents::with(alloc, slots, values)?;
        let reads = Gathered::one(alloc, format!(in alloc; "read {stream}")?.as_str())?;
        say_contents(alloc, &contents, settings, &reads, said)
    }

    /// `fails CALL` and `stops CALL`: a call where each of its device calls in turn fails, or all from there on; then
    /// the call itself. `fails group` and `stops group`: the same for the calls that were gathered.
    fn try_each(&mut self, mode: FailureMode, call: &str, said: &mut Said) -> Result<()> {
        let is_group = call == "group";
        let calls = if is_group {
            self.take_gathered()
        } else {
            Gathered::one(self.alloc, call)?
        };
        let doing = Doing::of(self.alloc, calls, is_group)?;
        let Some(slots) = self.shards.slots.first_mut() else {
            bail!("the shard is open");
        };
        let tries = Tries {
            alloc: self.alloc,
            settings: self.settings,
            mode,
            doing: &doing,
        };
        let contents = say_trials(tries, slots, said)?;
        self.contents = self.contents.saturating_add(contents);
        Ok(())
    }
}
