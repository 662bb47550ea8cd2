//! Worked examples of the laws of a domain that is checked: a quiet domain that meets all that is required for packets to arrive once;
//! LSDBs that are compared by CSNPs; and flooding that settles, with a run that meets all premises, and for each premise a run that shows
//! why it is needed. The crate depends on the laws, and has no code that runs.
#![tactic(auto)]

mod csnps;
mod premises;
mod quiet;

pub use csnps::{csnp_premises_can_be_met, differences_are_marked};
pub use premises::{premises_are_needed, premises_can_be_met, rest_can_be_met};
pub use quiet::quiet_premises_can_be_met;
