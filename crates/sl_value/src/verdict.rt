// Trusted types: ValueVerdict, Values, ValueFinding.
// The values of a run, and the verdicts on its snapshots.
use crate::whole::Whole;
use sl_machine::Listed;
use sl_model::{Lag, Verdict};

/// The verdict on a snapshot, where none is called inconsistent. Units are named by their places
/// among the units.
#[derive(Clone, Copy, Debug, PartialEq, Eq)]
pub enum ValueVerdict {
    /// Each unit has a value.
    Whole,
    /// The first unit that lags.
    Pending { unit: u32, lag: Lag },
    /// The floor, and the first unit that holds it; unit 0 where the net has no units.
    NotIssued { unit: u32, floor: u64 },
}

impl ValueVerdict {
    ghost use Rattle.std.specs.Prelude.{◌≡◌};
    ghost use Rattle.sl_value.specs.Verdicts.{valued};

    /// The verdict, where skipped and miscredited numbers have values too.
    pub fn of(verdict: Verdict) -> ValueVerdict
        ensures { result ≡ valued verdict }
    {
        match verdict {
            Verdict::Consistent => ValueVerdict::Whole,
            Verdict::Inconsistent { .. } => ValueVerdict::Whole,
            Verdict::Pending { unit, lag } => ValueVerdict::Pending { unit, lag },
            Verdict::NotIssued { unit, floor } => ValueVerdict::NotIssued { unit, floor },
        }
    }
}

/// One value per unit in order, or none.
pub type Values = Listed<Whole>;

/// The verdict on snapshot `k`, with a value for each unit where it is whole.
#[derive(Debug, Drop)]
pub struct ValueFinding {
    pub k: u64,
    pub verdict: ValueVerdict,
    pub values: Values,
}

/// Findings in order.
pub type ValueList = Listed<ValueFinding>;
