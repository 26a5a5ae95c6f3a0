//! The store: xorbs by hash, shards in order of acceptance, and plans of the files that they list.
#![tactic(auto)]

pub mod client;
pub mod deletion;
pub mod direct_access;
pub mod memory;
pub mod plans;
pub mod runs;
pub mod store;
pub mod upload;

pub use client::Client;
pub use deletion::DeletionControlableClient;
pub use direct_access::{DirectAccessClient, second_plans_are_regrouped};
pub use memory::MemoryClient;
pub use plans::FilePlans;
pub use runs::descriptor;
pub use store::Store;
pub use upload::upload_random_file;

#[cfg(test)]
mod tests;
