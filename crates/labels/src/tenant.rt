ghost use Rattle.std.specs.Prelude.{◌≡◌, string_bytes, ◌==◌, ◌⊎◌, ◌↔◌, List, Some, refl, false, IsTrue, IfOk, IfErr, IsErrOf};
ghost use Rattle.std.specs.Cmp as order;
ghost use Rattle.std.specs.Cmp.Lexicographic.{pointwise, slice_cmp, nat_list_eq_equiv, nat_list_cmp_total, texts_ties, texts_po};
ghost use Rattle.std.specs.Ordering.{nat_cmp};
ghost use Rattle.std.specs.List.{list_all};
ghost use Rattle.labels.specs.Tenants.{is_tenant, is_tenant_byte};

use crate::fault::LabelFault;
use std::alloc::{AllocError, Global};
use std::cmp::Ordering;
use std::marker::Model;

/// The longest tenant, in bytes.
const MAX_TENANT: usize = 150;

/// The tenant of streams, as the header `X-Scope-OrgID` names it: 1 to 150 ASCII letters, digits, `-` and `_`.
/// Contracts see its bytes.
#[derive(Debug, Drop)]
pub struct Tenant {
    text: String,
}

impl Model for Tenant {
    ghost use Rattle.std.specs.Prelude.{List, ℕ, string_bytes, IsTrue};
    ghost use Rattle.labels.specs.Tenants.{is_tenant};

    ghost Value = { List ℕ };

    ghost view = { λ t. string_bytes t.text };

    ghost invariant = { λ t. IsTrue (is_tenant (string_bytes t.text)) };
}

impl Tenant {
    /// The tenant of this name: `BadTenant` exactly where it is not 1 to 150 ASCII letters, digits, `-`
    /// and `_`.
    pub fn new(alloc: Global, text: &str) -> Result<Tenant, LabelFault>
        ensures ok { IfOk result (λ t. (t ≡ text.now) × IsTrue (is_tenant text.now)) }
        ensures bad { IsErrOf result LabelFault.BadTenant ↔ (is_tenant text.now ≡ false) }
        ensures cause { IfErr result (λ e. (e ≡ LabelFault.Memory) ⊎ (e ≡ LabelFault.BadTenant)) }
    {
        if !is_tenant(text) {
            return Err(LabelFault::BadTenant);
        }
        let text = String::from_str(alloc, text)?;
        Ok(Tenant { text })
    }

    /// The name.
    pub fn as_str(&self) -> &str
        ensures text { result.now ≡ self.now }
        ensures lawful { IsTrue (is_tenant self.now) }
    {
        self.text.as_str()
    }
}

fn is_tenant_byte(byte: u8) -> bool
    ensures { result ≡ is_tenant_byte byte }
{
    byte.is_ascii_alphanumeric() || byte == b'-' || byte == b'_'
}

fn has_tenant_bytes(text: &str) -> bool
    ensures { result ≡ list_all is_tenant_byte text.now }
{
    text.as_bytes().iter().all(|byte| is_tenant_byte(*byte))
}

#[tactic(auto, unfolding(crate::specs::Tenants::is_tenant))]
fn is_tenant(text: &str) -> bool
    ensures { result ≡ is_tenant text.now }
{
    !text.is_empty() && text.len() <= MAX_TENANT && has_tenant_bytes(text)
}

impl Clone for Tenant {
    ghost is_clone = { λ a b. b ≡ a };

    fn clone(&self) -> Result<Tenant, AllocError> {
        let text = self.text.clone()?;
        Ok(Tenant { text })
    }
}

impl PartialEq for Tenant {
    ghost eq = { pointwise ◌==◌ };

    ghost laws = { order.partial_equiv_from_equiv nat_list_eq_equiv };

    fn eq(&self, other: &Tenant) -> bool {
        self.as_str() == other.as_str()
    }
}

impl Eq for Tenant {
    ghost laws = { nat_list_eq_equiv };
}

impl PartialOrd for Tenant {
    ghost partial_cmp = { λ x y. Some (slice_cmp nat_cmp x y) };

    ghost laws = { texts_po };

    fn partial_cmp(&self, other: &Tenant) -> Option<Ordering> {
        Some(self.cmp(other))
    }
}

impl Ord for Tenant {
    ghost cmp = { slice_cmp nat_cmp };

    ghost total = { nat_list_cmp_total };

    ghost matches_partial_cmp = { λ x y. refl };

    ghost matches_eq = { texts_ties };

    fn cmp(&self, other: &Tenant) -> Ordering {
        self.as_str().cmp(other.as_str())
    }
}
