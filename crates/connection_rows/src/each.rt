//! Runs of a connection that are repeated for each place.
ghost use Rattle.std.specs.Prelude.{◌≡◌, ◌≢◌, max, true};
ghost use Rattle.rows.specs.Tallies.{one_more};

use crate::manner::Manner;
use anyhow::{Result, bail};

/// What changes from run to run, where a connection is run again for each place.
#[derive(Clone, Copy)]
pub enum Each {
    /// The stream ends there.
    Cut,
    /// The reader fails there.
    Fails,
    /// The writer fails there.
    Room,
    /// This many bytes come at a time.
    Step,
}

impl Each {
    /// The one of this name.
    ///
    /// # Errors
    /// Another name.
    pub fn find(name: &str) -> Result<Each> {
        match name {
            "cut" => Ok(Each::Cut),
            "fails" => Ok(Each::Fails),
            "room" => Ok(Each::Room),
            "step" => Ok(Each::Step),
            _ => bail!("each cut, fails, room or step"),
        }
    }

    /// The first place.
    pub fn first(self) -> usize
        ensures step { self ≡ Each.Step → result ≡ 1 }
        ensures other { self ≢ Each.Step → result ≡ 0 }
    {
        match self {
            Each::Cut | Each::Fails | Each::Room => 0,
            Each::Step => 1,
        }
    }

    /// The first place after the last one, where this many bytes come and this many are written.
    pub fn end(self, bytes: usize, written: usize) -> usize
        ensures room { self ≡ Each.Room → result ≡ one_more written }
        ensures other { self ≢ Each.Room → result ≡ one_more bytes }
    {
        match self {
            Each::Cut | Each::Fails | Each::Step => bytes.saturating_add(1),
            Each::Room => written.saturating_add(1),
        }
    }

    /// The manner of the run at this place.
    pub fn manner(self, manner: Manner, place: usize) -> Manner
        ensures cut { self ≡ Each.Cut → result ≡ record manner { length = place } }
        ensures fails { self ≡ Each.Fails
            → result ≡ record manner { length = place; fails = true } }
        ensures room { self ≡ Each.Room → result ≡ record manner { room = place } }
        ensures step { self ≡ Each.Step → result ≡ record manner { step = max place 1 } }
    {
        match self {
            Each::Cut => Manner {
                length: place,
                ..manner
            },
            Each::Fails => Manner {
                length: place,
                fails: true,
                ..manner
            },
            Each::Room => Manner {
                room: place,
                ..manner
            },
            Each::Step => Manner {
                step: place.max(1),
                ..manner
            },
        }
    }
}
