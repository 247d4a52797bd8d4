//! Certificates of the first format as ones of the second.
ghost use Rattle.std.specs.Prelude.{◌≡◌, IfOk};
ghost use Rattle.te_model.specs.Upgrade.{upgraded_certificate};
ghost use Rattle.te_model.specs.Validity.{IsValid};

use std::alloc::Global;
use te_model::{Certificate, FORMAT_2, Head, Memory, box_of};

/// The same certificate in the second format: a margin stands as the box of its bounds, and all else stays.
///
/// It is valid, the same inequality of it fails first or none does, and its set has the ratios of the margin
/// ([`upgrades_keep_meaning`](te_model::laws::upgrades_keep_meaning)). Answers an error only where memory runs out.
pub fn upgrade(alloc: Global, cert: Certificate) -> Result<Certificate, Memory>
    requires { IsValid cert }
    ensures { IfOk result (λ d. d ≡ upgraded_certificate cert) }
{
    let Certificate { head, blocks } = cert;
    let set = box_of(alloc, head.set)?;
    let head = Head {
        format: FORMAT_2.format,
        network: head.network,
        routes: head.routes,
        set,
        ratio: head.ratio,
    };
    Ok(Certificate { head, blocks })
}
