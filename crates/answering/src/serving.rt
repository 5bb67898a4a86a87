//! A connection from its reader to its writer: what comes is read, visited as the server's workers visit connections, and
//! answered.
ghost use Rattle.std.specs.Prelude.{◌≡◌, ◌≤◌, [], IfErr};
ghost use Rattle.std.specs.VecDeque.{deque_capacity, deque_len};
ghost use Rattle.answering.specs.Ends.{AreSameEnds, IsOfOneEnd};
ghost use Rattle.answering.specs.Serving.{ConnectionIsServed, world, io};
ghost use Rattle.answering.specs.Turns.{IsOneTurn};

use crate::calls::Calls;
use crate::clock::Clock;
use crate::connection::Connection;
use crate::ends::Ends;
use crate::gathering::{Workspace, answer_connections};
use requests::{ServeFault, Served};
use std::alloc::Global;
use std::collections::VecDeque;
use std::io::{Read, Write};
use std::sync::Wait;

// Visits a connection, and no other with it. `queue` is empty, and has room for it.
fn visit_alone<S: Calls, R: Wait, C: Clock>(
    rt: &R,
    alloc: Global,
    service: &S,
    pass: &mut S::Pass,
    clock: &mut C,
    queue: &mut VecDeque<Connection>,
    workspace: &mut Workspace,
    connection: Connection,
) -> Connection
    requires pass { S.is_ready service.now pass.old }
    requires empty { queue.old.items ≡ [] }
    requires room { 1 ≤ deque_capacity queue.old }
    ensures pass { S.is_ready service.now pass.new }
    ensures empty { queue.new.items ≡ [] }
    ensures room { deque_capacity queue.new ≡ deque_capacity queue.old }
    ensures turned { IsOneTurn (S.gives service.now) C.ticks (world pass.old clock.old) connection
        (world pass.new clock.new) result }
{
    queue.push_back_reserved(connection);
    answer_connections(rt, alloc, service, pass, clock, queue, workspace);
    let Some(connection) = queue.pop_front() else {
        unreachable!()
    };
    connection
}

/// Answers the requests of a connection, one after another, until its bytes end between two requests or
/// an answer closes it. The clock is read once for each whole request. No call is made of a request that was
/// cut. Each answer is one write, where the writer takes it whole.
///
/// # Errors
///
/// `Read`, `Memory` and `CutShort`: what is written are whole answers of a beginning of the requests.
/// `Memory` never comes in place of an answer of status 500.
/// `Write`: a beginning of the answers is written. Calls made before stand.
/// `Read` and `Write` come only where the reader or the writer failed.
pub fn serve<'a, 'b, 'c, 'd, S: Calls, R: Wait, C: Clock, I: Read, O: Write>(
    rt: &R,
    alloc: Global,
    service: &'a S,
    pass: &'a mut S::Pass,
    clock: &'a mut C,
    ends: &'b mut Ends<'c, 'd, I, O>,
) -> Result<Served, ServeFault>
    requires pass { S.is_ready service.now pass.old }
    ensures pass { S.is_ready service.now pass.new }
    ensures same { AreSameEnds ends.old ends.new }
    ensures told { IfErr result (λ fault.
        IsOfOneEnd ends.new.reader_failed ends.new.writer_failed fault) }
    ensures serves { ConnectionIsServed (S.gives service.now) C.ticks
        (io (I.remaining ends.old.reader.now) (O.contents ends.old.writer.now))
        (world pass.old clock.old)
        (io (I.remaining ends.new.reader.now) (O.contents ends.new.writer.now))
        (world pass.new clock.new) result }
{
    let mut queue = VecDeque::with_capacity(alloc, 1)?;
    let mut workspace = Workspace::new(alloc);
    let mut connection = Connection::new(alloc);
    for _turn in rt.forever() {
        if let Some(served) = ends.read_on(&mut connection)? {
            return Ok(served);
        }
        connection = visit_alone(
            rt,
            alloc,
            service,
            pass,
            clock,
            &mut queue,
            &mut workspace,
            connection,
        );
        ends.send(&mut connection)?;
        if connection.unanswered() {
            return Err(ServeFault::Memory);
        }
        if connection.closes() {
            return Ok(Served::Closed);
        }
    }
    unreachable!()
}
