//! The two ends of a connection.
ghost use Rattle.std.specs.Prelude.{◌≡◌, ◌⊎◌, ◌≢◌, ◌<◌, true, [], IfErr, OnOk};
ghost use Rattle.requests.specs.Streams.{Grows, IsCut};
ghost use Rattle.requests.specs.Writing.{WritesBeginning};
ghost use Rattle.answering.specs.Connections.{without_text};
ghost use Rattle.answering.specs.Ends.{AreSameEnds, IsReadOn, IsSameBut};

use crate::connection::Connection;
use requests::{ServeFault, Served, write_text};
use std::io::{Read, Write};

/// The two ends of a connection, and of each whether it failed when it was asked last.
#[derive(Drop)]
pub struct Ends<'a, 'b, I, O> {
    pub(crate) reader: &'a mut I,
    pub(crate) writer: &'b mut O,
    pub(crate) reader_failed: bool,
    pub(crate) writer_failed: bool,
}

impl<'a, 'b, I, O> Ends<'a, 'b, I, O> {
    /// None was asked yet.
    pub fn new(reader: &'a mut I, writer: &'b mut O) -> Ends<'a, 'b, I, O>
        ensures reader { (result.reader.ghost_name ≡ reader.entry.ghost_name)
            × (result.reader.now ≡ reader.old) }
        ensures writer { (result.writer.ghost_name ≡ writer.entry.ghost_name)
            × (result.writer.now ≡ writer.old) }
    {
        Ends {
            reader,
            writer,
            reader_failed: false,
            writer_failed: false,
        }
    }
}

impl<'a, 'b, I: Read, O: Write> Ends<'a, 'b, I, O> {
    /// Reads on, as much as may come before the next visit, if any may. It gives how the connection ended, where the
    /// stream did.
    pub(crate) fn read_on(
        &mut self,
        connection: &mut Connection,
    ) -> Result<Option<Served>, ServeFault>
        requires unbegun { 0 < connection.old.room → (connection.old.came ≡ []) ⊎ IsCut connection.old.came }
        ensures same { AreSameEnds self.old self.new }
        ensures writer { self.new.writer.now ≡ self.old.writer.now }
        ensures grows { Grows (I.remaining self.old.reader.now) (I.remaining self.new.reader.now)
            connection.old.came connection.new.came }
        ensures kept { IsSameBut connection.old connection.new }
        ensures reads { IsReadOn connection.new.came (I.remaining self.new.reader.now) result }
        ensures told { IfErr result (λ fault. fault ≡ ServeFault.Read → self.new.reader_failed ≡ true) }
    {
        if connection.room() == 0 {
            return Ok(None);
        }
        match connection.take_from(self.reader) {
            Ok(0) => {
                if connection.held() == 0 {
                    Ok(Some(Served::Ended))
                } else {
                    Err(ServeFault::CutShort)
                }
            }
            Ok(_) => Ok(None),
            Err(fault) => {
                self.reader_failed = true;
                Err(fault)
            }
        }
    }

    /// Sends all that is to be sent.
    pub(crate) fn send(&mut self, connection: &mut Connection) -> Result<(), ServeFault>
        ensures same { AreSameEnds self.old self.new }
        ensures reader { self.new.reader.now ≡ self.old.reader.now }
        ensures writes { WritesBeginning (O.contents self.old.writer.now)
            (O.contents self.new.writer.now) connection.old.text result }
        ensures some { IfErr result (λ fault. (fault ≡ ServeFault.Write) × (connection.old.text ≢ [])) }
        ensures told { IfErr result (λ _. self.new.writer_failed ≡ true) }
        ensures sent { OnOk result (connection.new ≡ without_text connection.old) }
    {
        let text = connection.text();
        if text.is_empty() {
            return Ok(());
        }
        let count = text.len();
        if let Err(fault) = write_text(self.writer, text) {
            self.writer_failed = true;
            return Err(fault);
        }
        connection.sent(count);
        Ok(())
    }
}
