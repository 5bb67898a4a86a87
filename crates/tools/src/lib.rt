//! What the programs `ingestctl` and `ingest1` do: each as a call with its words, reader and writers, so that tests can
//! run it.
#![tactic(auto)]

mod body;
mod ctl;
mod ingest1;
mod one_pass;

pub use ctl::run_ctl;
pub use ingest1::run_ingest1;
pub use programs::{Environment, environment_of, tell_about, words_of};
