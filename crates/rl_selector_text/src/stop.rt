//! Where reading stops.
ghost use Rattle.std.specs.Prelude.{◌≡◌};
ghost use Rattle.rl_plain.specs.declared.refusal.OrMemory.TheVariants.{Fault};
ghost use Rattle.rl_selector_text.specs.Stops.{stop, syntax, unsupported, offset_of};

use rl_plain::OrMemory;
use rl_query::fault::QueryFault;
use rl_query::token::Lexeme;

/// Why reading stopped, and the byte of the token at which it did.
#[derive(Clone, Copy, Drop)]
pub struct Stop {
    pub fault: QueryFault,
    pub offset: usize,
}

/// Why nothing was read.
pub type Stopped = OrMemory<Stop>;

impl From<Stop> for Stopped {
    ghost from_gives = { λ stop e. e ≡ Fault stop };

    fn from(stop: Stop) -> Self {
        OrMemory::Fault(stop)
    }
}

impl Stop {
    /// A fault at an offset.
    pub fn new(fault: QueryFault, offset: usize) -> Stop
        ensures { result ≡ stop fault offset }
    {
        Stop { fault, offset }
    }

    /// What is no query, at an offset.
    pub fn syntax(offset: usize) -> Stop
        ensures { result ≡ syntax offset }
    {
        Stop::new(QueryFault::Syntax(offset), offset)
    }

    /// What LogQL has and the ruler has not, at an offset.
    pub fn unsupported(offset: usize) -> Stop
        ensures { result ≡ unsupported offset }
    {
        Stop::new(QueryFault::Unsupported(offset), offset)
    }
}

/// The offset at which tokens begin.
pub fn offset_of(lexemes: &[Lexeme]) -> usize
    ensures { result ≡ offset_of lexemes.now }
{
    match lexemes {
        [first, ..] => first.offset,
        [] => 0,
    }
}
