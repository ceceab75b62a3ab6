//! Ranges of queries, built: what a line adds to their windows.
ghost use Rattle.std.specs.Prelude.{◌≡◌, IfOk, OnOk, true, false};
ghost use Rattle.rl_labels.specs.Selects.{selects};
ghost use Rattle.rl_pipeline.specs.Metering.{with_run};
ghost use Rattle.rl_windows.specs.Ranges.{code_of, element_for, HasRuns};

use crate::element::Element;
use rl_aggregate::Run;
use rl_aggregate::range::{pipeline_of, selector_of};
use rl_labels::{Ns, SelectorCode};
use rl_pipeline::{Meter, ParsedLine, Pipeline};
use rl_query::Term;
use std::alloc::{AllocError, Global};

/// The selector and the stages of a range, built.
#[derive(Drop)]
pub struct RangeCode {
    pub selector: SelectorCode,
    pub pipeline: Pipeline,
}

impl RangeCode {
    /// The code of the term's range. Its patterns were built when it was read, so a refusal is one for memory.
    pub fn build(alloc: Global, term: &Term) -> Result<RangeCode, AllocError>
        ensures { IfOk result (λ code. code ≡ code_of term.now) }
    {
        Ok(RangeCode {
            selector: selector_of(alloc, term)?,
            pipeline: pipeline_of(alloc, term)?,
        })
    }

    /// What a line of a stream adds to windows of the range: nothing where the selector does not select the stream, which is no
    /// run, or where a stage leaves the line out.
    pub fn element_for(
        &self,
        meter: &mut Meter,
        line: &mut ParsedLine<'_>,
        timestamp: Ns,
    ) -> Result<Option<Element>, AllocError>
        ensures element { IfOk result (λ element. element ≡ element_for self.now line.old timestamp) }
        ensures counted { OnOk result (selects self.now.selector line.old.labels ≡ true → meter.new ≡ with_run meter.old) }
        ensures runs { HasRuns 1 meter.old meter.new }
        ensures uncounted { selects self.now.selector line.old.labels ≡ false → meter.new ≡ meter.old }
        ensures line { line.new ≡ line.old }
    {
        if !self.selector.accepts(line.labels())? {
            return Ok(None);
        }
        let Some(labels) = self.pipeline.run_shared(meter, line)? else {
            return Ok(None);
        };
        let run = Run::of_line(labels, line.text().len() as u64);
        Ok(Some(Element::new(timestamp, run)))
    }
}
