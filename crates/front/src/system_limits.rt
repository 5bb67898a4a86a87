//! How many files a program may have open.

use std::alloc::Global;
use std::fs::{File, Files};
use std::io;

/// How many files this process may have open: `None` where that can't be read, or where there is no limit.
pub fn open_files<R: Files<File = File>>(rt: &R, alloc: Global) -> Option<u64> {
    let limits = File::open(rt, "/proc/self/limits").ok()?;
    let text = io::read_to_string(alloc, limits).ok()?;
    files_in(text.as_str())
}

// The number that a process's limits, a line each, give for open files.
fn files_in(limits: &str) -> Option<u64> {
    for line in limits.lines() {
        if let Some(rest) = line.strip_prefix("Max open files") {
            return rest.split_whitespace().next()?.parse::<u64>().ok();
        }
    }
    None
}
