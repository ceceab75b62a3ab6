//! What a session prints on.
ghost use Rattle.std.specs.Prelude.{◌≡◌, IsTrue, true, false, OnOk, OnErr};
ghost use Rattle.std.specs.Fmt.{decimal};
ghost use Rattle.std.specs.Io.KnownBytes.{Keeps};
ghost use Rattle.rl_sinks.specs.Pieces.{Writes};
ghost use Rattle.rl_session.specs.Printer.{Printing, Prints, HoldsFront, new_printing, as_list};

use crate::unwritten::{Unwritten, leave};
use rl_sinks::TextTarget;
use std::convert::Infallible;
use std::io::{self, ErrorKind, Write};
use std::marker::Model;
use std::snapshot::Snapshot;

/// A writer of texts. A write that failed is remembered, and nothing is written after it.
#[derive(Drop)]
pub struct Printer<W: Write> {
    writer: W,
    failed: bool,
    // The writer as it was given.
    start: Snapshot<W>,
    unwritten: Snapshot<Unwritten>,
}

impl<W: Write> Model for Printer<W> {
    ghost use Rattle.rl_session.specs.Printer.{Printing};

    ghost Value = { Printing };

    ghost use Rattle.rl_session.specs.Printer.{printing, AreWritten};
    ghost use Rattle.rl_session.specs.Unwritten.{bytes_of};

    ghost view = { λ a. printing (W.contents a.start.value) (W.contents a.writer) (bytes_of a.unwritten.value) a.failed };

    ghost invariant = { λ a. AreWritten (W.contents a.start.value) (W.contents a.writer) (bytes_of a.unwritten.value) a.failed };
}

impl<W: Write> Printer<W> {
    /// A printer that has printed nothing.
    pub fn new(writer: W) -> Self
        ensures { result ≡ new_printing (W.contents writer) }
    {
        let start = Snapshot::of(&writer);
        Printer {
            writer,
            failed: false,
            start,
            unwritten: Snapshot::of(&Unwritten::Nothing),
        }
    }

    /// Prints a text.
    pub fn text(&mut self, text: &str)
        ensures prints { Prints self.old text.now self.new }
        ensures stays { IsTrue self.old.failed → (self.new.failed ≡ true) × (self.new.held ≡ self.old.held) }
    {
        self.bytes(text.as_bytes());
    }

    /// Prints the bytes of texts.
    pub fn bytes(&mut self, bytes: &[u8])
        ensures prints { Prints self.old bytes.now self.new }
        ensures stays { IsTrue self.old.failed → (self.new.failed ≡ true) × (self.new.held ≡ self.old.held) }
    {
        let rest = write_unless(self.failed, &mut self.writer, bytes);
        self.failed |= !rest.is_empty();
        leave(&mut self.unwritten, rest);
    }

    /// Counts as a write that failed: something that was to be printed could not be made.
    pub fn fail(&mut self)
        ensures same { Keeps (as_list self.old) (as_list self.new) }
        ensures failed { (self.new.failed ≡ true) × (self.new.held ≡ self.old.held) }
    {
        self.failed = true;
    }

    /// Prints a number.
    pub fn number(&mut self, number: u64)
        ensures prints { Prints self.old (decimal number) self.new }
        ensures stays { IsTrue self.old.failed → (self.new.failed ≡ true) × (self.new.held ≡ self.old.held) }
    {
        let mut buffer = itoa::Buffer::new();
        self.text(buffer.format(number));
    }

    /// Hands on what the writer holds back. An error, where a write failed.
    pub fn flush(&mut self) -> io::Result<()>
        ensures same { Keeps (as_list self.old) (as_list self.new) }
        ensures front { HoldsFront self.new }
        ensures ok { OnOk result ((self.new.failed ≡ false) × (self.new.held ≡ self.new.asked)) }
        ensures err { OnErr result (self.new.failed ≡ true) }
    {
        let flushed = flush_unless(self.failed, &mut self.writer);
        self.failed = flushed.is_err();
        flushed
    }

    /// The writer.
    pub fn into_writer(self) -> W
        ensures { W.contents result ≡ self.held }
    {
        self.writer
    }
}

impl<W: Write> TextTarget for Printer<W> {
    type Error = Infallible;

    ghost use Rattle.rl_session.specs.Printer.{as_list};

    ghost contents = { as_list };

    fn put(&mut self, piece: &str) -> Result<(), Infallible> {
        self.text(piece);
        Ok(())
    }
}

// Writes bytes unless a write failed before, and answers what is left.
fn write_unless<'a, W: Write>(failed: bool, writer: &mut W, bytes: &'a [u8]) -> &'a [u8]
    ensures writes { Writes (W.contents writer.old) (W.contents writer.new) bytes.now result.now }
    ensures stays { IsTrue failed → (result.now ≡ bytes.now) × (W.contents writer.new ≡ W.contents writer.old) }
{
    if failed {
        return bytes;
    }
    write_out(writer, bytes)
}

// Writes bytes, and answers what is left: a write that fails or takes nothing ends it, one that is interrupted is made again.
fn write_out<'a, W: Write>(writer: &mut W, bytes: &'a [u8]) -> &'a [u8]
    ensures { Writes (W.contents writer.old) (W.contents writer.new) bytes.now result.now }
{
    let mut rest = bytes;
    for _ in 0..u64::MAX {
        if rest.is_empty() {
            return rest;
        }
        match writer.write(rest) {
            Ok(count) if count > 0 => rest = &rest[count..],
            Err(error) if error.kind() == ErrorKind::Interrupted => {}
            _ => return rest,
        }
    }
    rest
}

// Flushes unless a write failed before.
fn flush_unless<W: Write>(failed: bool, writer: &mut W) -> io::Result<()>
    ensures kept { Keeps (W.contents writer.old) (W.contents writer.new) }
    ensures failed { OnOk result (failed ≡ false) }
{
    if failed {
        return Err(io::Error::from(ErrorKind::WriteZero));
    }
    writer.flush()
}
