//! The call that the body of a read or a trim asks for.
ghost use Rattle.std.specs.Prelude.{◌≡◌, None, IfOk, IfErr};
ghost use Rattle.labels.specs.Canonical.{IsTextOf};
ghost use Rattle.labels.specs.Faults.{first_fault};
ghost use Rattle.accept.specs.Calls.{AreNumbers};
ghost use Rattle.requests.specs.declared.route.Route.TheVariants.{Read, Trim};
ghost use Rattle.answering.specs.Parts.{AsksForCall, IsUncalled};
ghost use Rattle.answering.specs.declared.calling.Uncalled.TheVariants.{Body};

use accept::Call;
use labels::{LabelFault, LabelSet, StreamKey, Tenant};
use pairs::LabelPairs;
use pushjson::{PushFault, RawRead, RawTrim, read_query, read_trim};
use std::alloc::Global;

/// Why no call is made of a body that asks for one.
#[derive(Clone, Copy)]
pub(crate) enum Uncalled {
    /// It is refused at its form, or there was no memory for a call.
    Body(PushFault),
    /// The labels of its stream are refused.
    Labels(LabelFault),
}

impl From<PushFault> for Uncalled {
    ghost from_gives = { λ fault why. why ≡ Body fault };

    fn from(fault: PushFault) -> Uncalled {
        Uncalled::Body(fault)
    }
}

/// The key of a stream.
///
/// # Errors
///
/// Why no call is made of it.
pub(crate) fn key_of(
    alloc: Global,
    tenant: &Tenant,
    pairs: LabelPairs,
) -> Result<StreamKey, Uncalled>
    ensures ok { IfOk result (λ key. (first_fault pairs ≡ None) × IsTextOf key.labels pairs
        × (key.tenant ≡ tenant.now)) }
    ensures cause { IfErr result (λ why. IsUncalled pairs why) }
{
    let labels = match LabelSet::new(alloc, pairs) {
        Ok(labels) => labels,
        Err(LabelFault::Memory) => return Err(Uncalled::Body(PushFault::Memory)),
        Err(fault) => return Err(Uncalled::Labels(fault)),
    };
    match tenant.clone() {
        Ok(tenant) => Ok(StreamKey { tenant, labels }),
        Err(_) => Err(Uncalled::Body(PushFault::Memory)),
    }
}

/// The call that the body of a read asks for.
///
/// # Errors
///
/// Why there is none.
pub(crate) fn call_of_read(alloc: Global, tenant: &Tenant, body: &[u8]) -> Result<Call, Uncalled>
    ensures asks { AsksForCall Read tenant.now body.now result }
    ensures numbers { IfOk result (λ call. AreNumbers call) }
{
    let RawRead { pairs, from, to } = read_query(alloc, body)?;
    let key = key_of(alloc, tenant, pairs)?;
    Ok(Call::Read { key, from, to })
}

/// The call that the body of a trim asks for.
///
/// # Errors
///
/// Why there is none.
pub(crate) fn call_of_trim(alloc: Global, tenant: &Tenant, body: &[u8]) -> Result<Call, Uncalled>
    ensures asks { AsksForCall Trim tenant.now body.now result }
    ensures numbers { IfOk result (λ call. AreNumbers call) }
{
    let RawTrim { pairs, bound } = read_trim(alloc, body)?;
    let key = key_of(alloc, tenant, pairs)?;
    Ok(Call::Trim { key, bound })
}
