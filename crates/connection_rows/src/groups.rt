//! Runs of which those with the same result are counted.

use rows::Said;
use std::alloc::Global;

/// Runs with the same result, counted.
#[derive(Drop)]
pub struct Groups {
    came: String,
    count: u64,
}

impl Groups {
    /// No run yet.
    pub fn new(alloc: Global) -> Groups {
        Groups {
            came: String::new(alloc),
            count: 0,
        }
    }

    /// Takes in a run with this result. Where those before had another result, they are said.
    pub fn note(&mut self, came: String, said: &mut Said) {
        if self.came.as_str() != came.as_str() {
            self.say(said);
            self.came = came;
            self.count = 0;
        }
        self.count = self.count.saturating_add(1);
    }

    /// Says the last runs: how many there were, and their result.
    pub fn say(&self, said: &mut Said) {
        let (count, came) = (self.count, self.came.as_str());
        if count > 0 {
            said.tell(format_args!("{count} times {came}\n"));
        }
    }
}
