//! `ingest1 NOW`: judges the push body on standard input on an empty shard, and reads it back.
#![tactic(auto)]

use std::process::ExitCode;
use tools::{environment_of, run_ingest1, tell_about, words_of};

/// What `--help` prints.
const HELP: &str = "\
usage: ingest1 NOW

Judges the push body on standard input on an empty shard in memory, and reads it back. NOW is the clock
in nanoseconds since 1970.

Environment:
  NEEDLEAZURE_MAX_CHUNK_AGE               half of it is how far a line may be behind its stream (2h)
  NEEDLEAZURE_REJECT_OLD_SAMPLES_MAX_AGE  how far a line may be before the clock (168h)
  NEEDLEAZURE_CREATION_GRACE_PERIOD       how far a line may be after the clock (10m)

man ingest1 has the rest.
";

fn main(rt: HostRuntime) -> ExitCode {
    let (Ok(words), Ok(environment)) = (words_of(&rt), environment_of(&rt)) else {
        let _ = rt.eprintln("out of memory");
        return ExitCode::FAILURE;
    };
    let (alloc, mut input) = (rt.alloc(), rt.stdin());
    let (mut output, mut errors) = (rt.stdout(), rt.stderr());
    if let Some(status) = tell_about(&words, "ingest1", HELP, &mut output, &mut errors) {
        return ExitCode::from(status);
    }
    let status = run_ingest1(
        &rt,
        alloc,
        &words,
        &environment,
        &mut input,
        &mut output,
        &mut errors,
    );
    ExitCode::from(status)
}
