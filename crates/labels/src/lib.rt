//! Keys of streams: a tenant, and a label set as its canonical text.
//!
//! From Loki's documentation: a stream is the set of entries of one tenant, whom the header `X-Scope-OrgID`
//! names, with one exact label set of at least one label, and the order of labels does not matter. The
//! limits, the canonical text, the order of faults and the shards are this project's profile.
#![tactic(auto)]

mod checks;
mod fault;
mod key;
mod label_set;
mod laws;
mod parsing;
mod shards;
mod tenant;
mod writing;

pub use checks::MAX_LABELS;
pub use fault::LabelFault;
pub use key::StreamKey;
pub use label_set::LabelSet;
pub use laws::{one_set, one_text, order_of_keys, some_text};
pub use shards::{MAX_SHARDS, shard_of};
pub use tenant::Tenant;
