//! People at a terminal.

use std::fmt::Display;
use std::io::{IsTerminal, Stderr, Write};

/// How many bytes a line may have.
const LINE: usize = 320;

/// Standard error, where it is given and is a terminal.
pub fn terminal_in(errors: Option<Stderr>) -> Option<Stderr> {
    match errors {
        Some(errors) if errors.is_terminal() => Some(errors),
        _ => None,
    }
}

/// Writes a line of up to 319 bytes in one write, so that lines of several threads do not mix. A longer one is left
/// out, and so is one that cannot be written.
pub fn say_line<L: Display + Drop>(mut terminal: Stderr, text: L) {
    let mut line = [0; LINE];
    let mut rest = line.as_mut_slice();
    if writeln!(rest, "{text}").is_ok() {
        let length = LINE.saturating_sub(rest.len());
        let _ = terminal.write_all(&line[..length]);
    }
}
