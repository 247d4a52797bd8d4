//! The verdict on a hose certificate: the inequalities H1 and H2 of each link, and the first that fails.
ghost use Rattle.std.specs.Prelude.{◌≡◌, ◌↔◌, ◌^◌, ◌<◌, ◌≤◌, ℕ, slice_index, IsTrue, All};
ghost use Rattle.te_model.specs.declared.limits.TheConstants.{FORMAT_2};
ghost use Rattle.te_model.specs.Counting.{unless};
ghost use Rattle.te_model.specs.Inequalities.{failure_at};
ghost use Rattle.te_model.specs.Laws.{PairsJoinNodes};
ghost use Rattle.te_model.specs.Network.{node_count, link_count, is_well_formed, capacity_of};
ghost use Rattle.te_model.specs.PathRouting.{IsPathRouting};
ghost use Rattle.ratio_checker.specs.Ascending.{AscendsFrom};
ghost use Rattle.hose_bound.specs.Hose.{IsBounded};
ghost use Rattle.hose_bound.specs.Judging.{AreSmallAmounts, IsSmallBlock};
ghost use Rattle.hose_bound.specs.Rules.{IsValidHoseCert};
ghost use Rattle.hose_bound.specs.Verdict.{hose_block_of, pays_numbers, first_hose_failure, verdict_of, HoldsOnLinks, IsFirstHoseFailure};

use crate::blocks::blocks_after;
use crate::hose::{Hose, HoseBlock, HoseCert};
use crate::pairs::{fault_of_pairs, first_uncovered};
use crate::sums::pays_numbers;
use routing::Routing;
use te_model::{InequalityFault, Network, PairRoutes};

/// What is found of a hose certificate.
#[derive(Clone, Copy, Debug, PartialEq, Eq)]
pub enum HoseVerdict {
    /// H1 and H2 hold of every link.
    Yes,
    /// The first that fails: its link, 1 for H1 or 2 for H2, and its place, which is the number of the pair in H1 and 0 in H2.
    No { link: u32, rule: u8, place: u64 },
}

// What fails of H2 on the link, by its block.
fn bound_failure(
    net: &Network,
    hose: &Hose,
    bound: u64,
    link: u32,
    block: &HoseBlock,
) -> Option<InequalityFault>
    requires nodes { node_count net.now ≤ FORMAT_2.nodes }
    requires amounts { AreSmallAmounts hose.now }
    requires block { IsSmallBlock block.now }
    requires link { link < link_count net.now }
    requires capacity { capacity_of net.now link ≤ 2 ^ 32 }
    ensures { result ≡ unless (pays_numbers net.now hose.now bound link block.now) (failure_at 2 0) }
{
    if pays_numbers(net, hose, bound, link, block) {
        None
    } else {
        Some(InequalityFault {
            number: 2,
            place: 0,
        })
    }
}

// What fails of H2 on the link, whose block is the first if it is there: nothing where it is not.
fn bound_failure_on(
    net: &Network,
    cert: &HoseCert,
    blocks: &[HoseBlock],
    link: u32,
) -> Option<InequalityFault>
    requires nodes { node_count net.now ≤ FORMAT_2.nodes }
    requires amounts { AreSmallAmounts cert.now.hose }
    requires blocks { All IsSmallBlock blocks.now }
    requires ascend { AscendsFrom (λ b. b.link) link blocks.now }
    requires link { link < link_count net.now }
    requires capacity { capacity_of net.now link ≤ 2 ^ 32 }
    ensures { result ≡ unless (pays_numbers net.now cert.now.hose cert.now.bound link (hose_block_of blocks.now link)) (failure_at 2 0) }
{
    match blocks.first() {
        Some(block) if block.link == link => {
            bound_failure(net, &cert.hose, cert.bound, link, block)
        }
        _ => None,
    }
}

// The verdict that the failure makes.
fn verdict_on(link: u32, failure: InequalityFault) -> HoseVerdict
    ensures { result ≡ HoseVerdict.No link failure.number failure.place }
{
    HoseVerdict::No {
        link,
        rule: failure.number,
        place: failure.place,
    }
}

// The verdict that the first failure makes. Blocks ascend by their links, so one walk serves all links.
pub(crate) fn first_verdict(net: &Network, routes: &[PairRoutes], cert: &HoseCert) -> HoseVerdict
    requires network { IsTrue (is_well_formed net.now) }
    requires routing { IsPathRouting net.now routes.now }
    requires cert { IsValidHoseCert net.now cert.now }
    ensures { result ≡ verdict_of (first_hose_failure net.now routes.now cert.now) }
{
    let mut blocks = cert.blocks.as_slice();
    let links = net.links.as_slice().len();
    let uncovered = first_uncovered(routes, blocks, links);
    for e in 0..links {
        let link = e as u32;
        let pairs = fault_of_pairs(uncovered, link);
        if let Some(failure) = pairs.or(bound_failure_on(net, cert, blocks, link)) {
            return verdict_on(link, failure);
        }
        blocks = blocks_after(blocks, link);
    }
    HoseVerdict::Yes
}

/// Whether the inequalities hold of every link, or else the first that fails. A link without a block has zeros. Takes no memory.
///
/// H1 is the dual of the greatest load of a link over the hose, by pair; H2 is its value (Duffield and others, 1999).
pub fn judge(net: &Network, routing: &Routing, cert: &HoseCert) -> HoseVerdict
    requires network { IsTrue (is_well_formed net.now) }
    requires routing { IsPathRouting net.now routing.now.routes }
    requires pairs { PairsJoinNodes net.now routing.now.routes }
    requires cert { IsValidHoseCert net.now cert.now }

    ensures verdict { result ≡ verdict_of (first_hose_failure net.now routing.now.routes cert.now) }
    ensures yes { (result ≡ HoseVerdict.Yes) ↔ HoldsOnLinks net.now routing.now.routes cert.now }

    // The failing link, rule and place that are least in this order.
    ensures no { (link rule place : ℕ) → result ≡ HoseVerdict.No link rule place →
        IsFirstHoseFailure net.now routing.now.routes cert.now (record { link = link; rule = rule; place = place }) }

    // No matrix within the hose uses a link above the bound.
    ensures bounded { result ≡ HoseVerdict.Yes →
        IsBounded net.now routing.now.routes (slice_index cert.now.hose.sent) (slice_index cert.now.hose.received) cert.now.bound }
{
    first_verdict(net, routing.routes.as_slice(), cert)
}
