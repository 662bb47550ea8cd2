//! The domain file: a TOML document that lists the routers of a BIER domain and the links that join them.
//!
//! It depends on `toml`. It promises, for all octets, the valid domain that they describe, or the first rule that they
//! break.
#![tactic(auto)]

mod arrays;
mod assemble;
mod bier;
mod by_router;
mod cut;
mod entry;
mod fault;
mod forms;
mod labels;
mod limits;
mod links;
mod read;
mod routers;
mod rows;
mod subdomains;

pub use fault::ConfFault;
pub use forms::system_octets;
pub use links::made_mac;
pub use read::read_domain;
