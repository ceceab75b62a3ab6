//! A caller in a session, and the lines of a block that are its own.
ghost use Rattle.std.specs.Prelude.{◌≡◌, ◌+◌, false, IfSome, OnOk, slice_get};
ghost use Rattle.rl_callers.specs.Blocks.{own_commands, AreOwnExecuted, AreReplied, IsReplied};
ghost use Rattle.rl_session.specs.Printer.{Prints};
ghost use Rattle.rl_session.specs.Session.{lines_left};
ghost use Rattle.std.specs.Option.{option_copied};

use crate::block::{caller_of, ends_block};
use rl_session::front::first_line;
use rl_session::{Engine, Printer, PushReader, answer_in_block};
use std::alloc::{AllocError, Global};
use std::io::Write;

/// What a line of a block was answered.
#[derive(Drop)]
pub(crate) struct Reply {
    pub(crate) text: Vec<u8>,
    // Wholly or in part.
    pub(crate) refused: bool,
}

/// A caller's engine, and what its lines of the last block were answered.
#[derive(Drop)]
pub struct Runner<E: Engine> {
    pub(crate) engine: E,
    pub(crate) replies: Vec<Reply>,
    // How many of them are printed.
    pub(crate) printed: usize,
    // Whether memory ran out for one of them.
    pub(crate) failed: bool,
}

impl<E: Engine> Runner<E> {
    /// A caller that was asked nothing yet.
    pub fn new(alloc: Global, engine: E) -> Self
        ensures { result.engine ≡ engine }
    {
        Runner {
            engine,
            replies: Vec::new(alloc),
            printed: 0,
            failed: false,
        }
    }

    /// The engine as its lines left it.
    pub fn into_engine(self) -> E
        ensures { result ≡ self.engine }
    {
        self.engine
    }

    /// Executes the lines of a block that are the caller's, one after the other, and keeps the replies. Where memory runs out for a
    /// reply no line more is looked at.
    pub(crate) fn run_block(
        &mut self,
        alloc: Global,
        callers: usize,
        number: usize,
        block: Option<&str>,
    )
        ensures { self.new.failed ≡ false → (self.new.printed ≡ 0) × AreOwnExecuted E.calls self.old.engine (own_commands callers number (lines_left (option_copied block.entry))) self.new.replies.items self.new.engine }
    {
        self.replies.clear();
        self.printed = 0;
        let mut reader = PushReader::new(alloc);
        self.failed = self
            .run_lines(alloc, &mut reader, callers, number, block)
            .is_err();
    }

    // Executes the caller's lines of a block, and adds their replies.
    fn run_lines(
        &mut self,
        alloc: Global,
        reader: &mut PushReader,
        callers: usize,
        number: usize,
        block: Option<&str>,
    ) -> Result<(), AllocError>
        ensures { OnOk result (AreReplied E.calls self.old (own_commands callers number (lines_left (option_copied block.entry))) self.new) }
    {
        let mut rest = block;
        while let Some(text) = rest {
            let (line, following) = first_line(text);
            if ends_block(line) {
                return Ok(());
            }
            if let Some((caller, command)) = caller_of(callers, line) {
                if caller == number {
                    self.answer(alloc, reader, command)?;
                }
            }
            rest = following;
        }
        Ok(())
    }

    // Executes a command, and adds the reply.
    fn answer(
        &mut self,
        alloc: Global,
        reader: &mut PushReader,
        command: &str,
    ) -> Result<(), AllocError>
        ensures { OnOk result (IsReplied E.calls self.old command.now self.new) }
    {
        let mut out = Printer::new(Vec::new(alloc));
        let refused = answer_in_block(alloc, reader, &mut self.engine, command, &mut out);
        let Ok(()) = out.flush() else {
            return Err(AllocError);
        };
        let text = out.into_writer();
        self.replies.push(Reply { text, refused })?;
        Ok(())
    }

    /// Prints the next reply, if there is one. Whether the line was refused.
    pub(crate) fn print_next<W: Write>(&mut self, out: &mut Printer<W>) -> bool
        ensures reply { IfSome (slice_get self.old.replies.items self.old.printed) (λ reply. (result ≡ reply.refused) × Prints out.old reply.text.items out.new × (self.new.printed ≡ self.old.printed + 1)) }
        ensures kept { (self.new.replies ≡ self.old.replies) × (self.new.engine ≡ self.old.engine) }
    {
        let Some(reply) = self.replies.get(self.printed) else {
            return false;
        };
        out.bytes(&reply.text);
        self.printed += 1;
        reply.refused
    }
}
