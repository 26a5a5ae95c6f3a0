//! Which chunks a range of a file needs, and where they lie in their xorbs.
#![tactic(auto)]

pub mod footers;
pub mod groups;
pub mod place;
pub mod plain;
pub mod planner;
pub mod runs;

pub use footers::Footers;
pub use groups::group;
pub use place::is_agreed;
pub use planner::{Plan, PlanTerms, compute_reconstruction_ranges, compute_reconstruction_terms};
pub use runs::MergedRange;
