ghost use Rattle.std.specs.Prelude.{IfOk, IfErr};
ghost use Rattle.model_json.specs.Certificate.{CertificateCause, IsCertificateText};

use crate::claims::claim_of;
use crate::links::{chain_for, links_for};
use crate::reading::json_of;
use chain_cert::{Chain, Claim};
use decl_base::Refusal;
use std::alloc::Global;

/// The claim and the chain of the certificate that the bytes are, as JSON.
///
/// Members that no rule names are read past, whatever they hold. Refusals: `NotJson`; `CertShape` with the number, from
/// 1 to 6, of the first part that isn't of its form; and `Memory`.
pub fn read_certificate(alloc: Global, bytes: &[u8]) -> Result<(Claim, Chain), Refusal>
    ensures certificate { IfOk result (λ read. IsCertificateText bytes.now read.0 read.1) }
    ensures cause { IfErr result (CertificateCause bytes.now) }
{
    let value = json_of(alloc, bytes)?;
    let claim = claim_of(alloc, &value)?;
    let Some(links) = links_for(alloc, &value, &claim)? else {
        return Err(Refusal::CertShape { part: 5 });
    };
    let Some(chain) = chain_for(alloc, &value, &claim, links)? else {
        return Err(Refusal::CertShape { part: 6 });
    };
    Ok((claim, chain))
}
