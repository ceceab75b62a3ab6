//! Whose the lines of a block are.
ghost use Rattle.std.specs.Prelude.{◌≡◌};
ghost use Rattle.std.specs.Option.{option_map};
ghost use Rattle.rl_callers.specs.Blocks.{caller_of, caller_of_words, ends_block};

use rl_labels::number_of;
use rl_session::command::cut_at;

/// Whether a line ends a block.
pub(crate) fn ends_block(line: &str) -> bool
    ensures { result ≡ ends_block line.now }
{
    line == "end"
}

/// The number of a line's caller, and its command, where it begins with the number of one of so many callers.
pub(crate) fn caller_of(callers: usize, line: &str) -> Option<(usize, &str)>
    ensures { option_map (λ own. (own.0, own.1.now)) result ≡ caller_of callers line.now }
{
    let (word, command) = cut_at(line, ' ')?;
    caller_of_words(callers, word, command)
}

fn caller_of_words<'a>(callers: usize, word: &str, command: &'a str) -> Option<(usize, &'a str)>
    ensures { option_map (λ own. (own.0, own.1.now)) result ≡ caller_of_words callers (word.now, command.entry.now) }
{
    let number = number_of(word.as_bytes(), 19)?;
    if number < callers as u64 {
        Some((number as usize, command))
    } else {
        None
    }
}
