//! `ingesterd DIR PORT SHARDS WORKERS [CONNECTIONS]`: the server.
#![tactic(auto)]

use front::{environment_of, run_server, tell_about, words_of};
use std::process::ExitCode;

/// What `--help` prints.
const HELP: &str = "\
usage: ingesterd DIR PORT SHARDS WORKERS [CONNECTIONS]

Takes pushes of log lines on 127.0.0.1 as Loki does, and keeps them in the folder DIR. PORT 0 takes any
port that is free. SHARDS and WORKERS are 1 to 64. After CONNECTIONS connections the server ends.

Environment:
  NEEDLEAZURE_MAX_CHUNK_AGE               half of it is how far a line may be behind its stream (2h)
  NEEDLEAZURE_REJECT_OLD_SAMPLES_MAX_AGE  how far a line may be before the clock (168h)
  NEEDLEAZURE_CREATION_GRACE_PERIOD       how far a line may be after the clock (10m)
  NEEDLEAZURE_CAPACITY                    the bytes of a slot (67108864)
  NEEDLEAZURE_OPEN_CONNECTIONS            how many connections may be open (10000)
  NEEDLEAZURE_HALF_SENT                   the bytes of requests that have not come whole (268435456)

man ingesterd has the rest.
";

fn main(rt: HostRuntime) -> ExitCode {
    let (Ok(words), Ok(environment)) = (words_of(&rt), environment_of(&rt)) else {
        let _ = rt.eprintln("out of memory");
        return ExitCode::FAILURE;
    };
    let (mut output, mut errors) = (rt.stdout(), rt.stderr());
    if let Some(status) = tell_about(&words, "ingesterd", HELP, &mut output, &mut errors) {
        return ExitCode::from(status);
    }
    let status = run_server(
        &rt,
        rt.alloc(),
        &words,
        &environment,
        &mut output,
        &mut errors,
        Some(rt.stderr()),
    );
    ExitCode::from(status)
}
