//! Lines that wait for a cursor to give them.
ghost use Rattle.std.specs.Prelude.{◌≡◌, ◌↔◌, [], ◌∷◌, IfOk, IsTrue, MatchOption};

use rl_chunks::Line;
use rl_labels::{Labels, Ns};
use rl_parts::Visitor;
use rl_plain::{PlainText, Same, Shared, TryCopy};
use std::alloc::{AllocError, Global};
use std::collections::VecDeque;
use std::marker::Model;

// Lines with their labels, the next one first. Lines of one stream share their labels.
#[derive(Drop)]
pub(crate) struct WaitingLines {
    alloc: Global,
    lines: VecDeque<(Shared<Labels>, Line)>,
}

impl Model for WaitingLines {
    ghost use Rattle.std.specs.Prelude.{List};
    ghost use Rattle.rl_labels.specs.LabelSet.{LabelSet};
    ghost use Rattle.rl_chunks.specs.declared.line.Line.{Line};
    ghost use Rattle.std.specs.Coded.{coded_list, coded×};
    ghost use Rattle.rl_labels.specs.LabelSet.{label_set_code};
    ghost use Rattle.rl_chunks.specs.contracts.line.Line as line_type;

    ghost Value = { List (LabelSet × Line) };

    ghost coded = { coded_list (coded× label_set_code line_type.the_row.coded) };

    ghost view = { λ a. a.lines.items };
}

// The labels, shared with the last line where its own are equal.
fn shared(
    alloc: Global,
    last: Option<&(Shared<Labels>, Line)>,
    labels: &Labels,
) -> Result<Shared<Labels>, AllocError>
    ensures { IfOk result (λ shared. shared ≡ labels.now) }
{
    if let Some((before, _)) = last {
        if before.get().is_same(labels) {
            return before.try_copy();
        }
    }
    Shared::new(alloc, labels.try_copy()?)
}

impl WaitingLines {
    // None wait.
    pub(crate) fn new(alloc: Global) -> WaitingLines
        ensures { result ≡ [] }
    {
        WaitingLines {
            alloc,
            lines: VecDeque::new(alloc),
        }
    }

    // Whether none wait.
    pub(crate) fn is_empty(&self) -> bool
        ensures { IsTrue result ↔ (self.now ≡ []) }
    {
        self.lines.is_empty()
    }

    // The next one, if one waits.
    pub(crate) fn pop(&mut self) -> Option<(Shared<Labels>, Line)>
        ensures { MatchOption result ((self.old ≡ []) × (self.new ≡ [])) (λ line. self.old ≡ line ∷ self.new) }
    {
        self.lines.pop_front()
    }

    // Forgets those that wait.
    pub(crate) fn clear(&mut self)
        ensures { self.new ≡ [] }
    {
        self.lines.clear();
    }
}

impl Visitor for WaitingLines {
    ghost use Rattle.std.specs.Prelude.{◌++◌};

    ghost visiting = { λ lines line. lines ++ line ∷ [] };

    fn visit(&mut self, labels: &Labels, timestamp: Ns, text: &str) -> Result<(), AllocError> {
        let labels = shared(self.alloc, self.lines.back(), labels)?;
        let text = PlainText::from_str(self.alloc, text)?;
        self.lines.push_back((labels, Line { timestamp, text }))?;
        Ok(())
    }
}
