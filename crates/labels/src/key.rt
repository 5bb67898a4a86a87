use crate::label_set::LabelSet;
use crate::tenant::Tenant;

/// The key of a stream. Keys are ordered by the tenant's bytes, then by the canonical text's.
#[derive(Clone, Debug, Drop, PartialEq, Eq, PartialOrd, Ord)]
pub struct StreamKey {
    /// The tenant of the stream.
    pub tenant: Tenant,
    /// The labels that tell it from the tenant's other streams.
    pub labels: LabelSet,
}
