//! The summary of a drawn network.
ghost use Rattle.std.specs.Prelude.{◌≡◌, ◌≤◌, ℕ, IfOk, IsTrue};
ghost use Rattle.te_model.specs.Network.{is_well_formed, link_count, node_count};
ghost use Rattle.te_model.specs.Pairs.{AscendPairs};
ghost use Rattle.scheme.specs.Reach.{AllReached, ArePairsOf};
ghost use Rattle.random_network.specs.Drawn.{IsConnected, network_of};
ghost use Rattle.traffic_matrix.specs.Gravity.{gravity_of};
ghost use Rattle.traffic_matrix.specs.Traffic.{IsTraffic, known_traffic};
ghost use Rattle.generation.specs.Summary.{IsJudgedDraw, IsSummary, IsTotal};

use crate::drawn_file::{drawn_file, read_back};
use crate::lines::{Summary, print_lines};
use crate::totals::{delivered_in, offered_in};
use failure::Failures;
use plan::Recovery;
use random_network::network;
use ratio_checker::{Finding, verdict};
use scheme::Spf;
use series_simulation::drive;
use std::alloc::Global;
use te_model::{Items, Memory, Network, Pairs};
use traffic_matrix::{Traffic, gravity};

/// The ratio of the certificate that is published for the pairs, and the finding on its file, which is read back.
fn ratio_and_finding(
    alloc: Global,
    network: &Network,
    pairs: &Pairs,
    seed: u64,
) -> Result<(u64, Finding), Memory>
    requires network { IsTrue (is_well_formed network.now) }
    requires links { 1 ≤ link_count network.now }
    requires pairs { ArePairsOf network.now pairs.now.list }
    requires ascending { AscendPairs pairs.now.list }
    requires reached { AllReached network.now pairs.now.list }
    ensures { IfOk result (λ r. IsJudgedDraw seed network.now pairs.now.list r.0 r.1) }
{
    let file = drawn_file(alloc, network, pairs, seed)?;
    let certificate = read_back(alloc, file.as_slice())?;
    Ok((certificate.head.ratio, verdict(&certificate)))
}

/// The demands of all steps, and what arrives of them over least paths, where no link fails.
fn offered_and_delivered(
    alloc: Global,
    network: &Network,
    traffic: &Traffic,
) -> Result<(u128, u128), Memory>
    requires network { IsTrue (is_well_formed network.now) }
    requires traffic { IsTraffic (node_count network.now) traffic.now }
    ensures { IfOk result (λ t. IsTotal network.now traffic.now t.0 t.1) }
{
    let none = Failures {
        list: Items::new(Vec::new(alloc)),
    };
    let rows = drive(alloc, &Spf, network, traffic, &none, Recovery::Keep)?;
    Ok((offered_in(rows.as_slice()), delivered_in(rows.as_slice())))
}

/// The summary of a network and a series that were drawn from the seed.
fn summary_over(
    alloc: Global,
    network: &Network,
    traffic: &Traffic,
    seed: u64,
) -> Result<Vec<u8>, Memory>
    requires network { IsTrue (is_well_formed network.now) }
    requires links { 1 ≤ link_count network.now }
    requires connected { IsConnected network.now }
    requires traffic { IsTraffic (node_count network.now) traffic.now }
    ensures { IfOk result (λ text. (n : ℕ) → network.now ≡ network_of n seed → traffic.now ≡ known_traffic (gravity_of (node_count network.now) seed 3) →
        IsSummary n seed text.items) }
{
    let (ratio, finding) = ratio_and_finding(alloc, network, &traffic.sent.pairs, seed)?;
    let (offered, delivered) = offered_and_delivered(alloc, network, traffic)?;
    let summary = Summary {
        nodes: network.names.as_slice().len(),
        links: network.links.as_slice().len(),
        pairs: traffic.sent.pairs.list.as_slice().len(),
        ratio,
        finding,
        offered,
        delivered,
    };
    print_lines(alloc, &summary)
}

/// The summary of a network that was drawn from the seed, over three matrices of the same seed.
fn summary_of(alloc: Global, network: &Network, seed: u64) -> Result<Vec<u8>, Memory>
    requires network { IsTrue (is_well_formed network.now) }
    requires links { 1 ≤ link_count network.now }
    requires connected { IsConnected network.now }
    ensures { IfOk result (λ text. (n : ℕ) → network.now ≡ network_of n seed → IsSummary n seed text.items) }
{
    let series = gravity(alloc, network, seed, 3)?;
    let traffic = Traffic::known(series);
    summary_over(alloc, network, &traffic, seed)
}

/// Draws a network of 2 to 64 nodes and three matrices by the gravity model from the seed, publishes a routing over four trees of the
/// seed, reads the certificate's file back and judges it, and simulates least paths over the three matrices, in which no link fails.
///
/// The lines are `nodes N`, `links M`, `pairs P`, `ratio R` in millionths, `answer yes`, and `offered X` and `delivered Y`, summed over
/// the steps. The only error is `Memory`, where memory is wanting.
pub fn summary(alloc: Global, nodes: u32, seed: u64) -> Result<Vec<u8>, Memory>
    requires some { 2 ≤ nodes }
    requires few { nodes ≤ 64 }
    ensures { IfOk result (λ text. IsSummary nodes seed text.items) }
{
    let network = network(alloc, nodes, seed)?;
    summary_of(alloc, &network, seed)
}
