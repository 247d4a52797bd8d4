//! What is answered of two certificates and a matrix: a plan, or why there is none.
ghost use Rattle.std.specs.Prelude.{◌≡◌, ◌^◌, ◌<◌, IfOk, length};
ghost use Rattle.te_model.specs.PathRouting.{IsPathRouting};
ghost use Rattle.routing.specs.Routes.{AreDemands};
ghost use Rattle.update_plan.specs.Answer.{IsUpdateText, no_slack_line};

use crate::fault::UpdateFault;
use crate::planning::plan_by_routes;
use crate::text::print;
use routing::have_pairs;
use std::alloc::Global;
use te_model::{Head, Matrix, Memory, Pairs, same_network};

fn no_slack_line(alloc: Global, link: u32) -> Result<Vec<u8>, Memory>
    ensures { IfOk result (λ line. line.items ≡ no_slack_line link) }
{
    let line = format!(in alloc; "no slack at link {link}\n")?;
    Ok(line.into_bytes())
}

/// The status and the text of the answer on an update from the routing of the one certificate to that of the other, under the
/// matrix of the declared pairs: `no network` where the networks differ, else `no pairs` where the pairs do, else `no slack at
/// link E`, each with status 1; else the text of the plan with status 0.
///
/// The routes of each head are a routing of its network, as those of valid heads are, and the matrix has a demand of at most
/// 2^32 for each declared pair. `Memory` comes where memory is wanting.
pub fn update_text(
    alloc: Global,
    old: &Head,
    new: &Head,
    pairs: &Pairs,
    matrix: &Matrix,
) -> Result<(u8, Vec<u8>), Memory>
    requires old { IsPathRouting old.now.network old.now.routes }
    requires new { IsPathRouting new.now.network new.now.routes }
    requires few { length old.now.routes < 2 ^ 32 }
    requires demands { AreDemands (length pairs.now.list) matrix.now.demand }
    ensures { IfOk result (λ answer. IsUpdateText old.now new.now pairs.now.list matrix.now.demand answer.0 answer.1.items) }
{
    if !same_network(&old.network, &new.network) {
        return Ok((1, Vec::from_slice(alloc, b"no network\n")?));
    }
    let declared = pairs.list.as_slice();
    let before = old.routes.as_slice();
    let after = new.routes.as_slice();
    if !have_pairs(before, declared) || !have_pairs(after, declared) {
        return Ok((1, Vec::from_slice(alloc, b"no pairs\n")?));
    }
    match plan_by_routes(alloc, &old.network, before, after, matrix.demand.as_slice()) {
        Ok(plan) => Ok((0, print(alloc, &plan)?)),
        Err(UpdateFault::NoSlack(link)) => Ok((1, no_slack_line(alloc, link)?)),
        Err(UpdateFault::Memory) => Err(Memory),
    }
}
