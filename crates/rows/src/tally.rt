ghost use Rattle.std.specs.Prelude.{◌≡◌, IfOk, string_bytes};
ghost use Rattle.rows.specs.Tallies.{one_more, told};

use crate::row::Row;
use anyhow::Result;
use std::alloc::Global;

/// How many rows were run, and how many of them said something wrong.
#[derive(Clone, Copy, Drop)]
pub struct Tally {
    rows: u64,
    differ: u64,
}

impl Tally {
    pub fn new() -> Tally
        ensures { result ≡ record { rows = 0; differ = 0 } }
    {
        Tally { rows: 0, differ: 0 }
    }

    /// Counts a row, and prints it where what was said is not what must be said.
    ///
    /// # Errors
    /// A failing output. The row is counted nevertheless.
    pub fn judge<R: Print>(&mut self, rt: &R, row: &Row<'_>, said: &str) -> Result<()>
        ensures rows { self.new.rows ≡ one_more self.old.rows }
        ensures same { said.now ≡ string_bytes row.now.wanted → self.new.differ ≡ self.old.differ }
        ensures other { ¬ (said.now ≡ string_bytes row.now.wanted)
            → self.new.differ ≡ one_more self.old.differ }
    {
        self.rows = self.rows.saturating_add(1);
        if said != row.wanted.as_str() {
            self.differ = self.differ.saturating_add(1);
            return print(rt, row, said);
        }
        Ok(())
    }

    /// Prints the counts.
    ///
    /// # Errors
    /// A failing output, and want of memory.
    pub fn end<R: Print + AllocGlobal>(&self, rt: &R) -> Result<()> {
        let text = self.text(rt.alloc())?;
        println!(rt; "{text}")?;
        Ok(())
    }

    fn text(&self, alloc: Global) -> Result<String>
        ensures { IfOk result (λ text. string_bytes text ≡ told self.now.rows self.now.differ) }
    {
        let (rows, differ) = (self.rows, self.differ);
        Ok(format!(in alloc; "{rows} rows, {differ} differ")?)
    }
}

/// Prints a row with what was said instead of what it wants.
fn print<R: Print>(rt: &R, row: &Row<'_>, said: &str) -> Result<()> {
    let (name, wanted) = (row.name, row.wanted.as_str());
    println!(rt; "row {name}\nwanted\n{wanted}said\n{said}end")?;
    Ok(())
}
