//! Connections that are visited together, as a worker of the server visits its own: what comes of each is taken in, a
//! request of each is answered by calls that are made together, and what was put there is written.
use crate::listed::{Listed, STORED};
use crate::plan::{CasePlan, ConnectionCase};
use crate::script::Script;
use crate::sink::Sink;
use crate::source::Source;
use crate::visits::{Ticking, say_end};
use answering::{Connection, ServeFault, Served, Workspace, answer_connections};
use anyhow::{Result, bail};
use requests::write_text;
use rows::Said;
use std::alloc::Global;
use std::collections::VecDeque;
use std::io::{ErrorKind, Read};
use std::sync::Wait;

/// The most bytes that are read at once.
const SPACE: usize = 4_096;

/// The most rounds in which connections are visited.
const ROUNDS: usize = 1_000_000;

/// The ends of a connection, and how it ended, where it has.
#[derive(Drop)]
struct Line<'a> {
    source: Source<'a>,
    sink: Sink,
    end: Option<Result<Served, ServeFault>>,
}

impl<'a> Line<'a> {
    fn of(alloc: Global, case: &'a ConnectionCase) -> Line<'a> {
        let manner = case.connection.manner;
        Line {
            source: case.connection.source(manner),
            sink: Sink::new(alloc, manner),
            end: None,
        }
    }

    /// Takes in what has come, if any may.
    fn receive(&mut self, connection: &mut Connection) {
        let mut space = [0u8; SPACE];
        let most = connection.room().min(SPACE);
        if most == 0 {
            return;
        }
        let count = match self.source.read(&mut space[..most]) {
            Ok(count) => count,
            Err(error) => {
                if error.kind() != ErrorKind::Interrupted {
                    self.end = Some(Err(ServeFault::Read));
                }
                return;
            }
        };
        if count == 0 {
            self.end = Some(if connection.held() == 0 {
                Ok(Served::Ended)
            } else {
                Err(ServeFault::CutShort)
            });
        } else if connection.take_in(&space[..count]).is_err() {
            self.end = Some(Err(ServeFault::Memory));
        }
    }

    /// Writes what is to be sent.
    fn send(&mut self, connection: &mut Connection) {
        let text = connection.text();
        let count = text.len();
        if count > 0 && write_text(&mut self.sink, text).is_err() {
            self.end = Some(Err(ServeFault::Write));
            return;
        }
        connection.sent(count);
        if connection.unanswered() {
            self.end = Some(Err(ServeFault::Memory));
        } else if connection.closes() {
            self.end = Some(Ok(Served::Closed));
        }
    }
}

/// Connections that are visited together, each with its ends.
#[derive(Drop)]
struct Lines<'a> {
    lines: Vec<Line<'a>>,
    /// Those of the lines that have not ended, in their order.
    kept: VecDeque<Connection>,
}

impl<'a> Lines<'a> {
    fn add(&mut self, alloc: Global, case: &'a ConnectionCase) -> Result<()> {
        self.lines.push(Line::of(alloc, case))?;
        self.keep(Connection::new(alloc))
    }

    fn keep(&mut self, connection: Connection) -> Result<()> {
        if self.kept.push_back(connection).is_err() {
            bail!("out of memory");
        }
        Ok(())
    }

    /// Has each that has not ended receive or send.
    fn each(&mut self, sends: bool) -> Result<()> {
        for place in 0..self.lines.len() {
            let Some(line) = self.lines.get_mut(place) else {
                break;
            };
            if line.end.is_some() {
                continue;
            }
            let Some(mut connection) = self.kept.pop_front() else {
                break;
            };
            if sends {
                line.send(&mut connection);
            } else {
                line.receive(&mut connection);
            }
            if line.end.is_none() {
                self.keep(connection)?;
            }
        }
        Ok(())
    }
}

/// Serves the connections of a plan together, over the list of the first, and says what each came to, and how many calls
/// were made.
///
/// # Errors
/// Want of memory.
pub fn run_together<R: Wait>(
    rt: &R,
    alloc: Global,
    plan: &CasePlan,
    said: &mut Said,
) -> Result<()> {
    let mut lines = Lines {
        lines: Vec::new(alloc),
        kept: VecDeque::new(alloc),
    };
    for visit in &plan.visits {
        lines.add(alloc, visit)?;
    }
    lines.add(alloc, &plan.last)?;
    let first = plan.visits.first().unwrap_or(&plan.last);
    let mut script = Script::new(first.list.clone()?, STORED);
    let mut clock = Ticking::of(first);
    let mut workspace = Workspace::new(alloc);
    for _round in 0..ROUNDS {
        if lines.kept.is_empty() {
            break;
        }
        lines.each(false)?;
        answer_connections(
            rt,
            alloc,
            &Listed,
            &mut script,
            &mut clock,
            &mut lines.kept,
            &mut workspace,
        );
        lines.each(true)?;
    }
    for line in &lines.lines {
        line.sink.say(said);
        match &line.end {
            Some(end) => say_end(end, said),
            None => said.put("goes on"),
        }
        said.put("\n");
    }
    let made = script.made();
    said.tell(format_args!("calls {made}\n"));
    Ok(())
}
