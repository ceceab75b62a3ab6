//! Answers that are written in one way, each in a line.
use crate::trouble::Trouble;
use rl_plain::OrMemory;
use std::fmt::{Debug, Display};

/// A value.
pub(crate) fn push_value<T: Display>(output: &mut String, value: &T) -> Result<(), Trouble> {
    writeln!(output, "{value}")?;
    Ok(())
}

/// A value as it is.
pub(crate) fn push_debug<T: Debug>(output: &mut String, value: &T) -> Result<(), Trouble> {
    writeln!(output, "{value:?}")?;
    Ok(())
}

/// A fault as it is, and in words.
pub(crate) fn push_fault_text<F: Debug + Display>(
    output: &mut String,
    fault: &F,
) -> Result<(), Trouble> {
    writeln!(output, "{fault:?}: {fault}")?;
    Ok(())
}

/// A fault as it is, and in words; not where memory ran out.
pub(crate) fn push_refused<F>(output: &mut String, refused: &OrMemory<F>) -> Result<(), Trouble>
where
    F: Debug + Display,
{
    match refused {
        OrMemory::Fault(fault) => push_fault_text(output, fault),
        OrMemory::Memory => Err(Trouble::Memory),
    }
}
