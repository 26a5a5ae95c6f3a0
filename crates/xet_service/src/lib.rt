//! Steps of readers and writers over a store, their replies, and runs of them.
#![tactic(auto)]

pub mod body;
mod links;
pub mod pieces;
pub mod plan_links;
mod read;
pub mod reader;
mod recent;
pub mod reply;
pub mod run;
pub mod service;
pub mod step;

pub use body::{TermBody, fetch_term_body};
pub use pieces::{Pieces, Walk};
pub use plan_links::{LinkWalk, PlanLinks, PlannedLink};
pub use reader::Reader;
pub use reply::{CacheNote, CacheRefusal, Reply};
pub use run::run_steps;
pub use service::ChunkService;
pub use step::{Act, Content, PlanVersion, Step};
