//! `cases FILE..`: does what the rows of these files say, and prints each row that does not say what it must, and the
//! counts. `cases quiet`: calls that request no memory, each kind between two lines, for whoever counts their requests.
//!
//! A line `of SUBJECT` in a file says which words the rows after it have: `streams` and `logs` (`layer_rows`), or `calls`
//! (`ingester_rows`).
#![tactic(auto)]

use anyhow::{Context, Result, bail};
use rows::{Row, Said, Tally, rows_of};
use std::env;
use std::fs::{self, File};
use std::rt::Files;
use std::sync::Wait;
use std::thread::Threads;

fn main(rt: HostRuntime) -> Result<()> {
    let mut tally = Tally::new();
    for word in env::args(&rt)?.skip(1) {
        if word.as_str() == "quiet" {
            layer_rows::make_quiet_calls(&rt)?;
            return ingester_rows::make_quiet_calls(&rt);
        }
        judge_file(&rt, word.as_str(), &mut tally)?;
    }
    tally.end(&rt)
}

fn judge_file<R>(rt: &R, path: &str, tally: &mut Tally) -> Result<()>
where
    R: Files<File = File> + Print + Threads + Wait + AllocGlobal + Copy + Send + Sync + 'static,
{
    let text = fs::read_to_string(rt, path)?;
    for row in rows_of(rt.alloc(), text.as_str())?.iter() {
        judge_row(rt, row, tally)?;
    }
    Ok(())
}

fn judge_row<R>(rt: &R, row: &Row<'_>, tally: &mut Tally) -> Result<()>
where
    R: Files<File = File> + Print + Threads + Wait + AllocGlobal + Copy + Send + Sync + 'static,
{
    let mut said = Said::new(rt.alloc());
    take_row(rt, row, &mut said).context(format_args!("row {}", row.name))?;
    tally.judge(rt, row, said.end()?.as_str())
}

fn take_row<R>(rt: &R, row: &Row<'_>, said: &mut Said) -> Result<()>
where
    R: Files<File = File> + Threads + Wait + AllocGlobal + Copy + Send + Sync + 'static,
{
    match row.about {
        "streams" => layer_rows::take_stream_row(rt.alloc(), row, said),
        "logs" => layer_rows::take_log_row(rt, row, said),
        "calls" => ingester_rows::take_row(rt, row, said),
        about => bail!("no rows are about this: {about}"),
    }
}
