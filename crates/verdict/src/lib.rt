// Whether a design that somebody else made is one for the rules: the five conditions in their order, each decided exactly.
// Nothing lost or made up is decided by the chase, and third normal form by the sets inside each part.
#![tactic(auto)]

mod chase;
mod check;
mod design_bytes;
mod given_design;
mod given_parts;
mod keeping;
mod opening;
mod own;
mod own_rules;
mod spread;
mod theorems;
mod third;

pub use check::{CheckFailure, check_design};
pub use design_bytes::design_from_bytes;
pub use own::made_and_checked;
pub use theorems::{chase_decides, own_designs_accepted, third_form_decided, verdict_pinned};
