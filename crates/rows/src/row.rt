use anyhow::{Result, anyhow, bail};
use std::alloc::{AllocError, Global};

/// One case.
#[derive(Drop)]
pub struct Row<'a> {
    /// What the row is about: what follows `of ` of the last such line before the row. Empty where there is none.
    pub about: &'a str,
    /// What follows `row `.
    pub name: &'a str,
    /// The lines that say what is done, in their order.
    pub given: Vec<&'a str>,
    /// What must be said: what follows `= ` of each line, with a line feed after it.
    pub wanted: String,
}

impl<'a> Row<'a> {
    fn new(alloc: Global, about: &'a str, name: &'a str) -> Row<'a> {
        Row {
            about,
            name,
            given: Vec::new(alloc),
            wanted: String::new(alloc),
        }
    }

    /// Whether the row is open after this line of it.
    fn take_line(&mut self, line: &'a str) -> Result<bool> {
        if line != "end" {
            self.take_words(line)?;
            return Ok(true);
        }
        if self.wanted.is_empty() {
            bail!("the row wants nothing");
        }
        Ok(false)
    }

    fn take_words(&mut self, line: &'a str) -> Result<(), AllocError> {
        match line.strip_prefix('=') {
            Some(said) => {
                self.wanted
                    .push_str(said.strip_prefix(' ').unwrap_or(said))?;
                self.wanted.push('\n')
            }
            None => Ok(self.given.push(line)?),
        }
    }
}

/// The rows of a text, in their order.
///
/// # Errors
/// A line outside a row, a row inside another one, a row without its end or without wanted lines, or want of memory.
pub fn rows_of<'a>(alloc: Global, text: &'a str) -> Result<Vec<Row<'a>>> {
    let mut rows = Vec::new(alloc);
    let (mut open, mut about) = (false, "");
    for (index, line) in text.lines().enumerate() {
        if let (false, Some(words)) = (open, line.strip_prefix("of ")) {
            about = words;
        } else if !line.is_empty() && !line.starts_with('#') {
            open = take_line(alloc, &mut rows, open, about, line).map_err(|error| anyhow!(
                "line {}: {error}",
                index.saturating_add(1)
            ))?;
        }
    }
    if open {
        bail!("the last row has no end");
    }
    Ok(rows)
}

/// Whether the last row is open after this line. A new one is about this.
fn take_line<'a>(
    alloc: Global,
    rows: &mut Vec<Row<'a>>,
    open: bool,
    about: &'a str,
    line: &'a str,
) -> Result<bool> {
    match (open, line.strip_prefix("row ")) {
        (false, None) => bail!("no row begins here"),
        (true, Some(_)) => bail!("the row before has no end"),
        (false, Some(name)) => {
            rows.push(Row::new(alloc, about, name))?;
            Ok(true)
        }
        (true, None) => match rows.last_mut() {
            Some(row) => row.take_line(line),
            None => Ok(false),
        },
    }
}

/// The first word of a line, and what follows the blank after it.
pub fn word_of(line: &str) -> (&str, &str) {
    line.split_once(' ').unwrap_or((line, ""))
}
