//! `ingestctl push|read|trim DIR SHARDS TENANT NOW`: answers the request on standard input over the slots of a folder.
#![tactic(auto)]

use std::process::ExitCode;
use tools::{environment_of, run_ctl, tell_about, words_of};

/// What `--help` prints.
const HELP: &str = "\
usage: ingestctl push|read|trim DIR SHARDS TENANT NOW

Answers the request on standard input over the slots of the folder DIR, which no server has open.
NOW is the clock in nanoseconds since 1970.

Environment:
  NEEDLEAZURE_MAX_CHUNK_AGE               half of it is how far a line may be behind its stream (2h)
  NEEDLEAZURE_REJECT_OLD_SAMPLES_MAX_AGE  how far a line may be before the clock (168h)
  NEEDLEAZURE_CREATION_GRACE_PERIOD       how far a line may be after the clock (10m)
  NEEDLEAZURE_CAPACITY                    the bytes of a slot (67108864)

man ingestctl has the rest.
";

fn main(rt: HostRuntime) -> ExitCode {
    let (Ok(words), Ok(environment)) = (words_of(&rt), environment_of(&rt)) else {
        let _ = rt.eprintln("out of memory");
        return ExitCode::FAILURE;
    };
    let (alloc, mut input) = (rt.alloc(), rt.stdin());
    let (mut output, mut errors) = (rt.stdout(), rt.stderr());
    if let Some(status) = tell_about(&words, "ingestctl", HELP, &mut output, &mut errors) {
        return ExitCode::from(status);
    }
    let status = run_ctl(
        &rt,
        alloc,
        &words,
        &environment,
        &mut input,
        &mut output,
        &mut errors,
    );
    ExitCode::from(status)
}
