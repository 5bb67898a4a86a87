//! `walsplit OLD NEW COUNT`: writes the streams of the slots in OLD into slots of COUNT shards in NEW.
#![tactic(auto)]

mod announced;
mod asked;
mod beside;
mod found;
mod program;
mod said;
mod walsplit_fault;

use crate::program::run_walsplit;
use programs::{setting_of, tell_about, words_of};
use std::process::ExitCode;

/// What `--help` prints.
const HELP: &str = "\
usage: walsplit OLD NEW COUNT

Writes the streams of the slots in the folder OLD into slots of COUNT shards, 1 to 64, in the folder NEW.
No server may have OLD open. NEEDLEAZURE_CAPACITY in the environment says the bytes of a new slot.

man walsplit has the rest.
";

fn main(rt: HostRuntime) -> ExitCode {
    let (Ok(words), Ok(setting)) = (words_of(&rt), setting_of(&rt)) else {
        let _ = rt.eprintln("out of memory");
        return ExitCode::FAILURE;
    };
    let (alloc, setting) = (rt.alloc(), setting.as_deref());
    let (mut output, mut errors) = (rt.stdout(), rt.stderr());
    if let Some(status) = tell_about(&words, "walsplit", HELP, &mut output, &mut errors) {
        return ExitCode::from(status);
    }
    let marks = Some(rt.stderr());
    let status = run_walsplit(&rt, alloc, &words, setting, &mut output, &mut errors, marks);
    ExitCode::from(status)
}
