//! `walcat FILE SHARD COUNT`: prints the segment in the file, which is a slot of shard SHARD among COUNT.
#![tactic(auto)]

mod listing;

use crate::listing::{are_walcat_words, run_walcat};
use programs::{tell_about, words_of};
use std::fs::{File, Files};
use std::io;
use std::process::ExitCode;

/// What `--help` prints.
const HELP: &str = "\
usage: walcat FILE SHARD COUNT

Prints the segment in FILE, which is a slot of shard SHARD, from 0 on, among COUNT.

man walcat has the rest.
";

fn main(rt: HostRuntime) -> ExitCode {
    let Ok(words) = words_of(&rt) else {
        let _ = rt.eprintln("out of memory");
        return ExitCode::FAILURE;
    };
    let (alloc, mut output, mut errors) = (rt.alloc(), rt.stdout(), rt.stderr());
    if let Some(status) = tell_about(&words, "walcat", HELP, &mut output, &mut errors) {
        return ExitCode::from(status);
    }
    let status = match words.first() {
        Some(file) if are_walcat_words(&words) => match File::open(&rt, file.as_str()) {
            Ok(mut slot) => run_walcat(alloc, &words, &mut slot, &mut output, &mut errors),
            Err(_) => {
                let _ = rt.eprintln(format_args!("cannot open {file}"));
                1
            }
        },
        _ => run_walcat(alloc, &words, &mut io::empty(), &mut output, &mut errors),
    };
    ExitCode::from(status)
}
