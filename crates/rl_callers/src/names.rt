//! The names under which faults are printed.
ghost use Rattle.std.specs.Prelude.{◌≡◌};
ghost use Rattle.rl_callers.specs.Names.{close_fault_name};

use rl_workers::CloseFault;

/// The name of why a ruler was not closed.
pub fn close_fault_name(fault: CloseFault) -> &'static str
    ensures { result.now ≡ close_fault_name fault }
{
    match fault {
        CloseFault::PassMissing => "PassMissing",
        CloseFault::Mismatch { .. } => "Mismatch",
        CloseFault::Fault => "Fault",
        CloseFault::Damaged => "Damaged",
        CloseFault::Memory => "Memory",
    }
}
