//! The document of an edit: one group.
ghost use Rattle.std.specs.Prelude.{◌≡◌};
ghost use Rattle.std.specs.Option.{ok_or};
ghost use Rattle.rl_session.specs.Edits.{only, GivesOneGroup};
ghost use Rattle.rl_session.specs.declared.edit.EditRefusal.TheVariants.{NotOneGroup};

use rl_rules::{Group, RulesError, read_rules};
use rl_world::Refusal;
use std::alloc::Global;

/// Why a group was not edited.
#[derive(Clone, Copy, Drop)]
pub(crate) enum EditRefusal {
    // The document gave no groups.
    Rules(RulesError),
    // It has none, or more than one.
    NotOneGroup,
    // No group has its name.
    NoSuchGroup,
    // The engine refused it.
    Engine(Refusal),
}

/// The one group of a document.
pub(crate) fn read_group(alloc: Global, document: &str) -> Result<Group, EditRefusal>
    ensures { GivesOneGroup document.now result }
{
    match read_rules(alloc, document) {
        Ok(groups) => one_group(groups),
        Err(error) => Err(EditRefusal::Rules(error)),
    }
}

// The group, unless there is none or more than one.
fn one_group(groups: Vec<Group>) -> Result<Group, EditRefusal>
    ensures { result ≡ ok_or (only groups.items) NotOneGroup }
{
    only(groups).ok_or(EditRefusal::NotOneGroup)
}

// The group, if there is one and no other.
fn only(mut groups: Vec<Group>) -> Option<Group>
    ensures { result ≡ only groups.items }
{
    if groups.len() == 1 {
        groups.pop()
    } else {
        None
    }
}
