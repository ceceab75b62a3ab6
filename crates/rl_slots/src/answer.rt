//! What a slot answers.
ghost use Rattle.std.specs.Prelude.{◌≡◌, IfOk};

use rl_aggregate::Partial;
use rl_plain::{PlainList, Shared, TryCopy};
use std::alloc::AllocError;

/// What a slot answers, one partial for each term, and the same again for whoever keeps it.
#[derive(Drop)]
pub struct Answer {
    pub partials: PlainList<Shared<Partial>>,
    pub copy: PlainList<Shared<Partial>>,
}

// Partials with a copy of them.
pub(crate) fn answer_of(partials: Vec<Shared<Partial>>) -> Result<Answer, AllocError>
    ensures partials { IfOk result (λ answer. answer.partials ≡ partials.items) }
    ensures copied { IfOk result (λ answer. answer.copy ≡ answer.partials) }
{
    let partials = PlainList::from_vec(partials);
    let copy = partials.try_copy()?;
    Ok(Answer { partials, copy })
}
