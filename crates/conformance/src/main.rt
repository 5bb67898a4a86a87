//! `conformance FILE..`: serves connections over ingesters in memory, or over lists of what comes of their calls, as
//! the rows of the files say, and prints each row that does not say what it must.
#![tactic(auto)]

mod opened;
mod serving;

use anyhow::{Context, Result};
use connection_rows::CasePlan;
use rows::{Row, Said, Tally, rows_of};
use std::rt::Files;
use std::sync::Wait;
use std::thread::Threads;
use std::{env, fs};

fn main(rt: HostRuntime) -> Result<()> {
    let mut tally = Tally::new();
    for file in env::args(&rt)?.skip(1) {
        judge_file(&rt, file.as_str(), &mut tally)?;
    }
    tally.end(&rt)
}

fn judge_file<R>(rt: &R, file: &str, tally: &mut Tally) -> Result<()>
where
    R: Files + Print + Threads + Wait + AllocGlobal + Copy + Send + Sync + 'static,
{
    let text = fs::read_to_string(rt, file)?;
    for row in rows_of(rt.alloc(), text.as_str())?.iter() {
        judge_row(rt, row, tally)?;
    }
    Ok(())
}

fn judge_row<R>(rt: &R, row: &Row<'_>, tally: &mut Tally) -> Result<()>
where
    R: Print + Threads + Wait + AllocGlobal + Copy + Send + Sync + 'static,
{
    let mut said = Said::new(rt.alloc());
    take_row(rt, row, &mut said).context(format_args!("row {}", row.name))?;
    tally.judge(rt, row, said.end()?.as_str())
}

fn take_row<R>(rt: &R, row: &Row<'_>, said: &mut Said) -> Result<()>
where
    R: Threads + Wait + AllocGlobal + Copy + Send + Sync + 'static,
{
    let alloc = rt.alloc();
    serving::serve_plan(rt, alloc, &CasePlan::read(alloc, &row.given)?, said)
}
