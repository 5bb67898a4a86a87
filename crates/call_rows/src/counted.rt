//! Texts of which equal ones in a row are counted.

use rows::Said;
use std::alloc::Global;

/// Texts one after another. Equal ones in a row are counted.
#[derive(Drop)]
pub struct Counted {
    between: &'static str,
    said: Said,
    last: String,
    count: u64,
}

impl Counted {
    /// No texts. `between` stands between those that differ.
    pub fn new(alloc: Global, between: &'static str) -> Counted {
        Counted {
            between,
            said: Said::new(alloc),
            last: String::new(alloc),
            count: 0,
        }
    }

    /// Adds a text after the others.
    pub fn add(&mut self, text: String) {
        if self.count > 0 && self.last.as_str() != text.as_str() {
            self.say_last();
            self.said.put(self.between);
            self.count = 0;
        }
        self.last = text;
        self.count = self.count.saturating_add(1);
    }

    /// Says the last text. One that came more than once is said as `3 times TEXT`.
    fn say_last(&mut self) {
        if self.count > 1 {
            self.said.tell(format_args!("{} times ", self.count));
        }
        self.said.put(self.last.as_str());
    }

    /// Says all texts, and ends the line.
    pub fn say(mut self, into: &mut Said) {
        self.say_last();
        into.put_all(&self.said);
        into.put("\n");
    }
}
