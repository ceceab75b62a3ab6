//! Rule files: what is printed of those that are refused, and groups beside one another.
use crate::compared::matched;
use crate::given::Read;
use crate::output::push_value;
use crate::trouble::Trouble;
use rl_rules::{Group, RulesError, read_rules};
use std::alloc::{AllocError, AllocFailed, Global};
use std::mem;

pub(crate) fn answer(output: &mut String, directive: &str, input: &str) -> Result<(), Trouble> {
    match directive {
        "fault" => fault(output, input),
        "groups" => matched::<Group>(output, input),
        _ => Err(Trouble::NoSuchDirective),
    }
}

// What is printed of the fault of a rule file, or of the lack of memory that is named.
fn fault(output: &mut String, input: &str) -> Result<(), Trouble> {
    let error = match input {
        "AllocError" => RulesError::from(AllocError),
        "AllocFailed" => RulesError::from(AllocFailed { value: 0u8 }),
        _ => error_of(*output.allocator(), input)?,
    };
    push_value(output, &error)
}

fn error_of(alloc: Global, file: &str) -> Result<RulesError, Trouble> {
    match read_rules(alloc, file) {
        Err(error) => Ok(error),
        Ok(groups) => {
            mem::forget(groups);
            Err(Trouble::BadInput)
        }
    }
}

/// The group of a rule file of one.
impl Read for Group {
    fn read(alloc: Global, file: &str) -> Result<Self, Trouble> {
        let mut groups = read_rules(alloc, file).or(Err(Trouble::BadInput))?;
        let group = groups.pop();
        mem::forget(groups);
        group.ok_or(Trouble::BadInput)
    }
}
