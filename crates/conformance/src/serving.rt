//! The connections of a row, one after another.

use crate::opened::OnePassIngester;
use anyhow::Result;
use connection_rows::{
    Came, CasePlan, ConnectionCase, Each, Groups, Manner, STORED, Script, Told, run_alone,
    run_listed, run_together,
};
use rows::Said;
use std::alloc::Global;
use std::sync::Wait;
use std::thread::Threads;

/// Serves the connections of a row, and says what each came to. Shards are opened where some connection needs them.
///
/// # Errors
/// Want of memory; a thread that could not be started.
pub fn serve_plan<R>(rt: &R, alloc: Global, plan: &CasePlan, said: &mut Said) -> Result<()>
where
    R: Threads + Wait + Copy + Send + Sync + 'static,
{
    if plan.is_together {
        return run_together(rt, alloc, plan, said);
    }
    if !plan.has_shards() {
        return serve_visits(rt, alloc, &mut None, plan, said);
    }
    let mut opened = Some(OnePassIngester::open(rt, alloc, plan)?);
    serve_visits(rt, alloc, &mut opened, plan, said)?;
    match opened {
        Some(opened) => opened.close(rt, alloc),
        None => Ok(()),
    }
}

fn serve_visits<R: Wait>(
    rt: &R,
    alloc: Global,
    opened: &mut Option<OnePassIngester>,
    plan: &CasePlan,
    said: &mut Said,
) -> Result<()> {
    for visit in &plan.visits {
        serve_visit(rt, alloc, opened, visit, said)?;
    }
    serve_visit(rt, alloc, opened, &plan.last, said)
}

/// Serves a connection whose bytes come in this manner: over its list if it has one, else over the shards, if there are
/// any.
fn run_visit<R: Wait>(
    rt: &R,
    alloc: Global,
    opened: &mut Option<OnePassIngester>,
    visit: &ConnectionCase,
    manner: Manner,
) -> Result<Came> {
    if visit.is_listed() {
        let script = Script::new(visit.list.clone()?, STORED);
        return Ok(run_listed(rt, alloc, visit, manner, script));
    }
    match opened {
        Some(opened) => Ok(opened.run_visit(rt, alloc, visit, manner)),
        None => run_alone(rt, alloc, visit, manner),
    }
}

/// Serves a connection, and then again for each place, or for each of its calls.
fn serve_visit<R: Wait>(
    rt: &R,
    alloc: Global,
    opened: &mut Option<OnePassIngester>,
    visit: &ConnectionCase,
    said: &mut Said,
) -> Result<()> {
    if let Some(opened) = opened {
        if visit.ends_owners {
            opened.end_owners(rt);
        }
    }
    let whole = run_visit(rt, alloc, opened, visit, visit.connection.manner)?;
    whole.say(said);
    if let Some(each) = visit.each {
        return serve_each(rt, alloc, opened, visit, each, &whole, said);
    }
    match visit.at_each {
        Some(told) => serve_each_call(rt, alloc, visit, told, whole.count, said),
        None => Ok(()),
    }
}

fn serve_each<R: Wait>(
    rt: &R,
    alloc: Global,
    opened: &mut Option<OnePassIngester>,
    visit: &ConnectionCase,
    each: Each,
    whole: &Came,
    said: &mut Said,
) -> Result<()> {
    let mut groups = Groups::new(alloc);
    let end = each.end(visit.connection.len(), whole.sink.text().len());
    for place in each.first()..end {
        let manner = each.manner(visit.connection.manner, place);
        let came = run_visit(rt, alloc, opened, visit, manner)?;
        groups.note(came.beside(alloc, whole)?, said);
    }
    groups.say(said);
    Ok(())
}

/// Serves a connection once for each of its calls. The calls before that one are stored, and of it and all later ones
/// comes what is told.
fn serve_each_call<R: Wait>(
    rt: &R,
    alloc: Global,
    visit: &ConnectionCase,
    told: Told,
    calls: u64,
    said: &mut Said,
) -> Result<()> {
    let mut groups = Groups::new(alloc);
    for place in 0..calls {
        let list = vec![in alloc; STORED; place as usize]?;
        let script = Script::new(list, told);
        let came = run_listed(rt, alloc, visit, visit.connection.manner, script);
        groups.note(came.last_line(alloc)?, said);
    }
    groups.say(said);
    Ok(())
}
