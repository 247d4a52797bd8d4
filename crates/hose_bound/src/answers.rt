//! What is answered of a certificate's routing, to a hose certificate and to a hose: the status, and the whole text.
ghost use Rattle.std.specs.Prelude.{◌≡◌, ◌<◌, ◌≤◌, length, IfOk, IsTrue, string_bytes};
ghost use Rattle.te_model.specs.declared.limits.TheConstants.{FORMAT_2};
ghost use Rattle.te_model.specs.Laws.{PairsJoinNodes};
ghost use Rattle.te_model.specs.Network.{is_well_formed, node_count};
ghost use Rattle.te_model.specs.PathRouting.{IsPathRouting};
ghost use Rattle.hose_bound.specs.Answers.{IsBoundedBy, IsHoseText, IsHoseVerdict, IsLeastHoseText, verdict_line, verdict_status};
ghost use Rattle.hose_bound.specs.Rules.{IsValidHose, IsValidHoseCert};

use crate::hose::{Hose, HoseCert};
use crate::maker::make;
use crate::verdict::{HoseVerdict, first_verdict};
use crate::writer::print;
use routing::Routing;
use std::alloc::Global;
use te_model::{Head, Memory};

// The line of a verdict on a hose certificate with this bound.
fn verdict_line(alloc: Global, bound: u64, verdict: HoseVerdict) -> Result<String, Memory>
    ensures { IfOk result (λ line. string_bytes line ≡ verdict_line bound verdict) }
{
    match verdict {
        HoseVerdict::Yes => Ok(format!(in alloc; "yes bound {bound}\n")?),
        HoseVerdict::No { link, rule, place } => {
            Ok(format!(in alloc; "no link {link} rule H{rule} place {place}\n")?)
        }
    }
}

fn verdict_status(verdict: HoseVerdict) -> u8
    ensures { result ≡ verdict_status verdict }
{
    match verdict {
        HoseVerdict::Yes => 0,
        HoseVerdict::No { .. } => 1,
    }
}

/// What `check-hose` answers of the head of a certificate and a hose certificate: 0 and `yes bound U`, or 1 and
/// `no link E rule HK place P`, each with a line feed.
///
/// # Errors
///
/// Only `Memory`, where memory runs out.
pub fn check_hose_text(alloc: Global, head: &Head, cert: &HoseCert) -> Result<(u8, Vec<u8>), Memory>
    requires network { IsTrue (is_well_formed head.now.network) }
    requires routing { IsPathRouting head.now.network head.now.routes }
    requires pairs { PairsJoinNodes head.now.network head.now.routes }
    requires cert { IsValidHoseCert head.now.network cert.now }
    ensures answer { IfOk result (λ answer. IsHoseVerdict head.now cert.now answer.0 answer.1.items) }

    // At the status 0 no matrix within the hose uses a link above the bound, by the certificate's routing.
    ensures proves { IfOk result (λ answer. answer.0 ≡ 0 → IsBoundedBy head.now.network head.now.routes cert.now) }
{
    let verdict = first_verdict(&head.network, head.routes.as_slice(), cert);
    let line = verdict_line(alloc, cert.bound, verdict)?;
    Ok((verdict_status(verdict), line.into_bytes()))
}

/// What `hose` answers of the head of a certificate and a hose: 0 and the file of the hose certificate that
/// [`make`](crate::make) may give, which is below 2,200,000 bytes. No lower bound is true of the routing.
///
/// # Errors
///
/// Only `Memory`, where memory runs out.
pub fn hose_text(alloc: Global, head: Head, hose: Hose) -> Result<(u8, Vec<u8>), Memory>
    requires network { IsTrue (is_well_formed head.network) }
    requires routing { IsPathRouting head.network head.routes }
    requires pairs { PairsJoinNodes head.network head.routes }
    requires count { length head.routes ≤ FORMAT_2.pairs }
    requires hose { IsValidHose (node_count head.network) hose }
    ensures status { IfOk result (λ answer. answer.0 ≡ 0) }
    ensures text { IfOk result (λ answer. IsHoseText head.network head.routes hose answer.1.items) }
    ensures least { IfOk result (λ answer. IsLeastHoseText head.network head.routes hose answer.1.items) }
    ensures short { IfOk result (λ answer. length answer.1.items < 2200000) }
{
    let Head {
        network,
        routes,
        ..
    } = head;
    let routing = Routing { routes };
    let cert = make(alloc, &network, &routing, hose)?;
    Ok((0, print(alloc, &cert)?))
}
