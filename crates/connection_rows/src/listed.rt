//! Makes the calls of requests, with results that a list gives.
use crate::manner::Manner;
use crate::plan::ConnectionCase;
use crate::script::{Script, Told};
use crate::sink::Sink;
use crate::visits::{Came, Ticking};
use accept::{Call, CallFault, Outcome, Reply};
use answering::{Calls, Ends, serve};
use anyhow::{Result, bail};
use std::alloc::Global;
use std::collections::VecDeque;
use std::sync::Wait;

/// What comes of calls that no list tells of.
pub const STORED: Told = Told::Each(Outcome::Stored);

/// Makes calls as a list says. Nothing is promised of what comes of them.
#[derive(Drop)]
pub struct Listed;

impl Calls for Listed {
    type Pass = Script;

    ghost is_ready = { λ _ _. Unit {0} };

    ghost gives = { λ _ _ _ _ _ _. Unit {0} };

    fn call<R: Wait>(
        &self,
        _rt: &R,
        alloc: Global,
        pass: &mut Script,
        call: Call,
    ) -> Result<Reply, CallFault> {
        pass.make(alloc, call)
    }

    fn call_all<R: Wait>(
        &self,
        _rt: &R,
        alloc: Global,
        pass: &mut Script,
        calls: &mut VecDeque<Call>,
        outcomes: &mut VecDeque<Result<Reply, CallFault>>,
    ) {
        while let Some(call) = calls.pop_front() {
            outcomes.push_back_reserved(pass.make(alloc, call));
        }
    }
}

/// Serves a connection whose bytes come in this manner, over a list of what comes of its calls.
pub fn run_listed<R: Wait>(
    rt: &R,
    alloc: Global,
    visit: &ConnectionCase,
    manner: Manner,
    mut script: Script,
) -> Came {
    let mut clock = Ticking::of(visit);
    let mut source = visit.connection.source(manner);
    let mut sink = Sink::new(alloc, manner);
    let mut ends = Ends::new(&mut source, &mut sink);
    let end = serve(rt, alloc, &Listed, &mut script, &mut clock, &mut ends);
    let made = script.made();
    Came {
        sink,
        end,
        count: made,
        gained: made,
        counted: "calls",
    }
}

/// Serves a connection that makes no call.
///
/// # Errors
/// It makes one.
pub fn run_alone<R: Wait>(
    rt: &R,
    alloc: Global,
    visit: &ConnectionCase,
    manner: Manner,
) -> Result<Came> {
    let script = Script::new(Vec::new(alloc), STORED);
    let mut came = run_listed(rt, alloc, visit, manner, script);
    if came.count > 0 {
        bail!("a row that is alone makes a call");
    }
    came.counted = "steps";
    Ok(came)
}
