//! The lines and blocks of a session of callers.
ghost use Rattle.std.specs.Prelude.{◌≡◌, ◌<◌, ◌∷◌, ℕ, List, map, length, true, false};
ghost use Rattle.std.specs.List.{list_any};
ghost use Rattle.std.specs.Option.{option_copied};
ghost use Rattle.rl_callers.specs.Blocks.{ends_block, AreLeft, AreRun, ExecutesAll, IsBlockExecuted, IsBlockLine};
ghost use Rattle.rl_session.specs.Printer.{Prints};
ghost use Rattle.rl_session.specs.Session.{lines_left};

use crate::block::{caller_of, ends_block};
use crate::runner::Runner;
use rl_session::front::first_line;
use rl_session::{Engine, Printer, RunError, StoppedAt, is_blank, run_lines};
use std::alloc::Global;
use std::io::Write;
use std::thread;
use std::thread::Threads;

/// Carries out the commands of a text, the first caller's but for the lines of blocks, and prints what they print, up to `end`. A
/// block's lines run in threads, one for each caller, and their replies are printed in the order of the lines when all have ended. Whether a
/// line was refused, wholly or in part. WriteFault, where a write failed: then no line more is looked at; Memory, where there was none
/// for a reply of a block.
pub fn run_callers<E: Engine + Send, R: Threads + Sync, W: Write>(
    rt: &R,
    alloc: Global,
    callers: &mut [Runner<E>],
    commands: &str,
    out: &mut Printer<W>,
) -> Result<bool, RunError>
    requires some { 0 < length callers.old }
    requires blocks { E.calls.blocks ≡ true }
    ensures { ExecutesAll E.calls (map (λ caller. caller.engine) callers.old) commands.now out.old result out.new (map (λ caller. caller.engine) callers.new) }
{
    let mut refused = false;
    let mut rest = Some(commands);
    while let Some(text) = rest {
        let stopped = run_lines(alloc, &mut callers[0].engine, text, out)?;
        refused |= stopped.refused;
        let StoppedAt::Block(block) = stopped.at else {
            return Ok(refused);
        };
        run_block(rt, alloc, callers, block);
        if has_failed(callers) {
            let _ = out.flush();
            return Err(RunError::Memory);
        }
        let (some, following) = print_block(callers, block, out);
        out.flush()?;
        refused |= some;
        rest = following;
    }
    Ok(refused)
}

// Each caller executes its lines of a block, in a thread of its own.
fn run_block<E: Engine + Send, R: Threads + Sync>(
    rt: &R,
    alloc: Global,
    callers: &mut [Runner<E>],
    block: Option<&str>,
)
    requires { 0 < length callers.old }
    ensures { AreRun E.calls callers.old (lines_left (option_copied block.entry)) callers.new }
{
    let count = callers.len();
    thread::for_each_mut(
        rt,
        callers,
        count,
        &|number, caller| { caller.run_block(alloc, count, number, block) },
    );
}

// Whether memory ran out for a reply of a caller.
fn has_failed<E: Engine>(callers: &[Runner<E>]) -> bool
    ensures { result ≡ list_any (λ caller. caller.failed) callers.now }
{
    callers.iter().any(|caller| caller.failed)
}

// Prints the replies of a block in the order of its lines. Whether one was refused, and the text after the block.
fn print_block<'a, E: Engine, W: Write>(
    callers: &mut [Runner<E>],
    block: Option<&'a str>,
    out: &mut Printer<W>,
) -> (bool, Option<&'a str>)
    ensures printed { (olds : List E) → AreLeft E.calls olds (lines_left (option_copied block.entry)) callers.old → (text : List ℕ) × IsBlockExecuted E.calls olds (lines_left (option_copied block.entry)) text result.0 (lines_left (option_copied result.1)) (map (λ caller. caller.engine) callers.new) × Prints out.old text out.new }
    ensures engines { map (λ caller. caller.engine) callers.new ≡ map (λ caller. caller.engine) callers.old }
{
    let mut refused = false;
    let mut rest = block;
    while let Some(text) = rest {
        let (line, following) = first_line(text);
        if ends_block(line) {
            return (refused, following);
        }
        refused |= print_reply(callers, line, out);
        rest = following;
    }
    (refused, None)
}

// Prints the next reply of a line's caller; what has no caller is refused, unless it is blank. Whether the line was refused.
fn print_reply<E: Engine, W: Write>(
    callers: &mut [Runner<E>],
    line: &str,
    out: &mut Printer<W>,
) -> bool
    ensures printed { (olds : List E) (lines : List (List ℕ)) → ends_block line.now ≡ false → AreLeft E.calls olds (line.now ∷ lines) callers.old → (text : List ℕ) × (mids : List E) × IsBlockLine E.calls olds line.now text result mids × AreLeft E.calls mids lines callers.new × Prints out.old text out.new }
    ensures engines { map (λ caller. caller.engine) callers.new ≡ map (λ caller. caller.engine) callers.old }
{
    match caller_of(callers.len(), line) {
        Some((number, _command)) => callers[number].print_next(out),
        None if is_blank(line) => false,
        None => {
            out.text("refused BadCommand\n");
            true
        }
    }
}
