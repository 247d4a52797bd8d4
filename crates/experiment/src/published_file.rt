//! The file of the certificate that a plan publishes.
ghost use Rattle.std.specs.Prelude.{◌≡◌, ◌<◌, ◌≤◌, IfOk, IfErr, OnOk, IsTrue};
ghost use Rattle.te_model.specs.Network.{is_well_formed, link_count, node_count};
ghost use Rattle.te_model.specs.Text.{text};
ghost use Rattle.scheme.specs.Fault.{IsFault};
ghost use Rattle.scheme.specs.declared.fault.SchemeFault.{SchemeFault};
ghost use Rattle.scheme.specs.Reach.{AllReached};
ghost use Rattle.traffic_matrix.specs.Limits.{IsSeries};
ghost use Rattle.plan.specs.Plan.{InRange};
ghost use Rattle.experiment.specs.Published.{IsBestBySeeds, IsMadeByPlan, IsPublished, later_seed, seed_count, with_seed};

use crate::demand_set::published_set;
use crate::publishing::publish;
use crate::robust_publishing::publish_robust;
use cert_text::print;
use ecmp_split::Ecmp;
use k_paths::Ksp;
use plan::{Experiment, SchemeName};
use racke_mix::Racke;
use robust_routing::Robust;
use scheme::{SchemeFault, Spf};
use std::alloc::Global;
use te_model::{Certificate, Network};
use traffic_matrix::Series;
use valiant_mix::Valiant;

/// The seed that comes so many after the plan's.
fn later_seed(plan: &Experiment, count: u32) -> u64
    ensures { result ≡ later_seed plan.now count }
{
    plan.seed.wrapping_add(u64::from(count))
}

/// Of how many seeds a certificate is made.
fn seed_count(plan: &Experiment) -> u32
    ensures { result ≡ seed_count plan.now }
{
    if plan.publish.draws() { plan.seeds } else { 1 }
}

/// A certificate of the routing that the plan has with this seed in place of its own.
fn certificate_by_seed(
    alloc: Global,
    plan: &Experiment,
    network: &Network,
    series: &Series,
    seed: u64,
) -> Result<Certificate, SchemeFault>
    requires plan { InRange plan.now }
    requires network { IsTrue (is_well_formed network.now) }
    requires links { 1 ≤ link_count network.now }
    requires series { IsSeries (node_count network.now) series.now }
    ensures made { IfOk result (IsMadeByPlan (with_seed plan.now seed) network.now series.now) }
    ensures reached { OnOk result (AllReached network.now series.now.pairs.list) }
    ensures fault { IfErr result (IsFault network.now series.now.pairs.list) }
{
    let set = published_set(alloc, plan, series)?;
    let pairs = &series.pairs;
    match plan.publish {
        SchemeName::Spf => publish(alloc, &Spf, network, pairs, set, plan.budget),
        SchemeName::Ecmp => publish(alloc, &Ecmp, network, pairs, set, plan.budget),
        SchemeName::Ksp => {
            let scheme = Ksp { k: plan.k };
            publish(alloc, &scheme, network, pairs, set, plan.budget)
        }
        SchemeName::Racke => {
            let scheme = Racke {
                trees: plan.trees,
                seed,
            };
            publish(alloc, &scheme, network, pairs, set, plan.budget)
        }
        SchemeName::Valiant => publish(alloc, &Valiant, network, pairs, set, plan.budget),
        SchemeName::Robust => {
            let scheme = Robust { ways: plan.budget };
            publish_robust(alloc, &scheme, network, pairs, set)
        }
        // A plan publishes an oblivious scheme.
        SchemeName::Mcf | SchemeName::Smore => unreachable!(),
    }
}

/// Puts the other certificate in place of the best one, if its ratio is less.
fn keep_lesser(best: &mut Certificate, found: Certificate)
    ensures same { best.old.head.ratio ≤ found.head.ratio → best.new ≡ best.old }
    ensures lesser { found.head.ratio < best.old.head.ratio → best.new ≡ found }
{
    if found.head.ratio < best.head.ratio {
        *best = found;
    }
}

/// The first certificate of the least ratio among those by the plan's seeds.
fn best_certificate(
    alloc: Global,
    plan: &Experiment,
    network: &Network,
    series: &Series,
) -> Result<Certificate, SchemeFault>
    requires plan { InRange plan.now }
    requires network { IsTrue (is_well_formed network.now) }
    requires links { 1 ≤ link_count network.now }
    requires series { IsSeries (node_count network.now) series.now }
    ensures best { IfOk result (IsBestBySeeds plan.now network.now series.now) }
    ensures reached { OnOk result (AllReached network.now series.now.pairs.list) }
    ensures fault { IfErr result (IsFault network.now series.now.pairs.list) }
{
    let first = later_seed(plan, 0);
    let mut best = certificate_by_seed(alloc, plan, network, series, first)?;
    for count in 1..seed_count(plan) {
        let seed = later_seed(plan, count);
        let next = certificate_by_seed(alloc, plan, network, series, seed)?;
        keep_lesser(&mut best, next);
    }
    Ok(best)
}

/// The file of a certificate.
fn file_of(alloc: Global, certificate: &Certificate) -> Result<Vec<u8>, SchemeFault>
    ensures spelling { IfOk result (λ file. file.items ≡ text certificate.now) }
    ensures memory { IfErr result (λ fault. fault ≡ SchemeFault.Memory) }
{
    let file = print(alloc, certificate)?;
    Ok(file)
}

/// The file of a certificate of the routing that the plan publishes, for the declared pairs of the series: of the plan's seeds the first
/// one whose certificate has the least ratio.
///
/// The network has at least one link. `NoPath` names the first declared pair without a path, exactly where there is one, and
/// `Memory` comes where memory is wanting.
pub fn certificate_file(
    alloc: Global,
    plan: &Experiment,
    network: &Network,
    series: &Series,
) -> Result<Vec<u8>, SchemeFault>
    requires plan { InRange plan.now }
    requires network { IsTrue (is_well_formed network.now) }
    requires links { 1 ≤ link_count network.now }
    requires series { IsSeries (node_count network.now) series.now }
    ensures published { IfOk result (λ file. IsPublished plan.now network.now series.now file.items) }
    ensures reached { OnOk result (AllReached network.now series.now.pairs.list) }
    ensures fault { IfErr result (IsFault network.now series.now.pairs.list) }
{
    let certificate = best_certificate(alloc, plan, network, series)?;
    file_of(alloc, &certificate)
}
