//! Alerts: series of an alerting rule, from one evaluation to the next.
ghost use Rattle.std.specs.Prelude.{◌≡◌, ◌↔◌, IsTrue, IfOk, IsOk};

use rl_aggregate::Fraction;
use rl_labels::{Labels, Ns};
use rl_plain::{Same, TryCopy};
use std::alloc::AllocError;

/// An alert of a rule: a series that its vector has, or had.
#[derive(Drop)]
pub struct Alert {
    /// The series' labels, the rule's over them, and the rule's name as `alertname`.
    pub labels: Labels,
    /// The value that the series has, or had last.
    pub value: Fraction,
    /// The moment from which it is active, its series there without a break.
    pub active_at: Ns,
    /// When the alert became firing, if it has.
    pub fired: Option<Ns>,
    pub state: AlertState,
}

/// The state of an alert.
#[derive(Clone, Copy, Debug, PartialEq, Eq)]
pub enum AlertState {
    /// Its series has not been there for long enough.
    Pending,
    Firing,
    /// It was firing at the evaluation before, and its series is gone.
    Resolved,
}

impl TryCopy for AlertState {
    /// Takes no memory, and is never refused.
    fn try_copy(&self) -> Result<Self, AllocError>
        ensures copy { IfOk result (λ copy. copy ≡ self.now) }
        ensures made { IsOk result }
    {
        Ok(*self)
    }
}

impl Same for AlertState {
    fn is_same(&self, other: &Self) -> bool {
        self == other
    }
}

impl TryCopy for Alert {
    /// Shares the labels, without memory, as `Labels` does.
    fn try_copy(&self) -> Result<Self, AllocError> {
        let labels = self.labels.try_copy()?;
        Ok(Alert {
            labels,
            value: self.value,
            active_at: self.active_at,
            fired: self.fired,
            state: self.state,
        })
    }
}

impl Same for Alert {
    fn is_same(&self, other: &Self) -> bool {
        self.labels.is_same(&other.labels)
            && self.value.is_same(&other.value)
            && self.active_at.is_same(&other.active_at)
            && self.fired.is_same(&other.fired)
            && self.state.is_same(&other.state)
    }
}

impl PartialEq for Alert {
    ghost use Rattle.std.specs.Cmp;
    ghost use Rattle.rl_rules.specs.SameCoded.{same_coded, same_coded-equiv};
    ghost use Rattle.rl_rules.specs.contracts.alert.Alert as alert_type;

    ghost eq = { same_coded alert_type.the_row.coded };

    ghost laws = { Cmp.partial_equiv_from_equiv (same_coded-equiv alert_type.the_row.coded) };

    fn eq(&self, other: &Self) -> bool
        ensures coded { result ≡ same_coded alert_type.the_row.coded self.now other.now }
        ensures one { IsTrue result ↔ (self.now ≡ other.now) }
    {
        self.is_same(other)
    }
}

impl Eq for Alert {
    ghost use Rattle.rl_rules.specs.SameCoded.{same_coded-equiv};
    ghost use Rattle.rl_rules.specs.contracts.alert.Alert as alert_type;

    ghost laws = { same_coded-equiv alert_type.the_row.coded };
}
