//! The worst matrices for the link whose block needs most.
ghost use Rattle.std.specs.Prelude.{◌≡◌, ◌^◌, ◌<◌, ◌≤◌, [], All, IfOk, IfSome, IsTrue, OnOk, length};
ghost use Rattle.te_model.specs.Laws.{PairsJoinNodes};
ghost use Rattle.te_model.specs.Network.{is_well_formed, link_count, node_count};
ghost use Rattle.te_model.specs.PathRouting.{IsPathRouting};
ghost use Rattle.best_blocks.specs.Need.{HasNumbers};
ghost use Rattle.worst_matrices.specs.Count.{AreMoreBy, HasUsedBlock};
ghost use Rattle.worst_matrices.specs.Members.{HasNoMatrix, IsScaledMember};
ghost use Rattle.worst_matrices.specs.Usage.{HasSmallBounds, IsLinkUsage, IsWeightSearch};

use crate::means::Sums;
use crate::members::{ScaledMatrix, member_near};
use crate::neediest::neediest_link;
use crate::sweeps::{Search, make_stage, start};
use crate::usage::LinkUsage;
use routing::{Routing, Shares};
use std::alloc::Global;
use te_model::{Block, DemandSet, Memory, Network};

/// How many stages of sweeps there are whose matrices are not looked at: they bring the weights near. The steps of each stage are half
/// as great as those of the one before.
const FIRST_STAGES: usize = 2;

/// The step divisor in the first of them. Greater steps make some weights so small that the later ones do not bring them back.
const FIRST_DIVISOR: u64 = 4;

/// How many stages of ever smaller steps follow whose means are looked at.
const MIDDLE_STAGES: usize = 4;

/// The step divisor in the first of these stages.
const MIDDLE_DIVISOR: u64 = 16;

/// The step divisor in the last one.
const MAX_DIVISOR: u64 = 128;

/// How many stages of equal steps follow whose means are looked at. The weights are near by then, yet a scheme's routing of one mean
/// may be much nearer to the best one than that of another.
const LAST_STAGES: usize = 4;

/// The step divisor in these stages.
const LAST_DIVISOR: u64 = 32;

/// The share of each pair on the link.
fn shares_on(alloc: Global, routing: &Routing, link: u32) -> Result<Vec<u64>, Memory>
    requires { length routing.now.routes < 2 ^ 32 }
    ensures { IfOk result (λ s. length s.items ≡ length routing.now.routes) }
{
    let pairs = routing.routes.as_slice().len();
    let mut shares = Vec::with_capacity(alloc, pairs)?;
    for p in 0..pairs {
        shares.push(routing.share(p as u32, link))?;
    }
    Ok(shares)
}

/// Whether the worst matrices have demands of a pair with this share.
fn is_asked(set: &DemandSet, share: u64) -> bool {
    match set {
        DemandSet::All => share > 0,
        DemandSet::Margin { .. } => true,
        DemandSet::Box { .. } => true,
    }
}

/// Marks the sources of the pairs of which the worst matrices have demands.
fn mark_sources(usage: &LinkUsage, marks: &mut [bool])
    requires usage { IsLinkUsage usage.now }
    requires count { length marks.old ≡ node_count usage.now.net.now }
{
    let routes = usage.routing.routes.as_slice();
    for p in 0..routes.len() {
        if is_asked(usage.set, usage.shares[p]) {
            marks[routes[p].pair.src as usize] = true;
        }
    }
}

/// Adds the matrix of the set that is nearest to the mean of the sums, where there is one.
fn add_mean(
    alloc: Global,
    set: &DemandSet,
    sums: &Sums,
    found: &mut Vec<ScaledMatrix>,
) -> Result<(), Memory>
    requires set { HasSmallBounds set.now }
    requires found { All (IsScaledMember set.now (length sums.now.demand.items)) found.old.items }
    ensures members { OnOk result (All (IsScaledMember set.now (length sums.now.demand.items)) found.new.items) }
    ensures count { OnOk result (AreMoreBy 1 set.now (length sums.now.demand.items) found.old.items found.new.items) }
{
    match member_near(alloc, set, sums)? {
        Some(matrix) => {
            found.push(matrix)?;
            Ok(())
        }
        None => Ok(()),
    }
}

/// Goes on with the search by its first stages.
fn make_first_stages(
    alloc: Global,
    usage: &LinkUsage,
    marks: &[bool],
    search: &mut Search,
) -> Result<(), Memory>
    requires usage { IsLinkUsage usage.now }
    requires marks { length marks.now ≡ node_count usage.now.net.now }
    requires search { IsWeightSearch usage.now search.old }
    ensures { OnOk result (IsWeightSearch usage.now search.new) }
{
    let mut divisor = FIRST_DIVISOR;
    for _ in 0..FIRST_STAGES {
        make_stage(alloc, usage, marks, search, divisor)?;
        divisor = (2 * divisor).min(MAX_DIVISOR);
    }
    Ok(())
}

/// Goes on with the search by a stage, and adds the matrix of the set that is nearest to its mean, where there is one.
fn add_stage(
    alloc: Global,
    usage: &LinkUsage,
    marks: &[bool],
    search: &mut Search,
    divisor: u64,
    found: &mut Vec<ScaledMatrix>,
) -> Result<(), Memory>
    requires usage { IsLinkUsage usage.now }
    requires marks { length marks.now ≡ node_count usage.now.net.now }
    requires search { IsWeightSearch usage.now search.old }
    requires divisor { (1 ≤ divisor) × (divisor ≤ 128) }
    requires found { All (IsScaledMember usage.now.set.now (length usage.now.shares.now)) found.old.items }
    ensures search { OnOk result (IsWeightSearch usage.now search.new) }
    ensures found { OnOk result (All (IsScaledMember usage.now.set.now (length usage.now.shares.now)) found.new.items) }
    ensures count { OnOk result (AreMoreBy 1 usage.now.set.now (length usage.now.shares.now) found.old.items found.new.items) }
{
    let sums = make_stage(alloc, usage, marks, search, divisor)?;
    add_mean(alloc, usage.set, &sums, found)
}

/// Goes on with the search by so many stages, and adds their means. The step divisor of the first is `first`, and that of each stage twice that of
/// the one before, up to `most`.
fn add_stages(
    alloc: Global,
    usage: &LinkUsage,
    marks: &[bool],
    search: &mut Search,
    count: usize,
    first: u64,
    most: u64,
    found: &mut Vec<ScaledMatrix>,
) -> Result<(), Memory>
    requires usage { IsLinkUsage usage.now }
    requires marks { length marks.now ≡ node_count usage.now.net.now }
    requires search { IsWeightSearch usage.now search.old }
    requires first { (1 ≤ first) × (first ≤ 128) }
    requires most { (1 ≤ most) × (most ≤ 128) }
    requires found { All (IsScaledMember usage.now.set.now (length usage.now.shares.now)) found.old.items }
    ensures search { OnOk result (IsWeightSearch usage.now search.new) }
    ensures found { OnOk result (All (IsScaledMember usage.now.set.now (length usage.now.shares.now)) found.new.items) }
    ensures count { OnOk result (AreMoreBy count usage.now.set.now (length usage.now.shares.now) found.old.items found.new.items) }
{
    let mut divisor = first;
    for _stage in 0..count {
        add_stage(alloc, usage, marks, search, divisor, found)?;
        divisor = (2 * divisor).min(most);
    }
    Ok(())
}

/// The means for a link.
fn means_for(alloc: Global, usage: &LinkUsage) -> Result<Vec<ScaledMatrix>, Memory>
    requires { IsLinkUsage usage.now }
    ensures members { IfOk result (λ found. All (IsScaledMember usage.now.set.now (length usage.now.shares.now)) found.items) }
    ensures count { IfOk result (λ found. AreMoreBy 8 usage.now.set.now (length usage.now.shares.now) [] found.items) }
{
    let mut marks = vec![in alloc; false; usage.net.names.as_slice().len()]?;
    mark_sources(usage, &mut marks);
    let mut search = start(alloc, usage, &marks)?;
    let mut found = Vec::new(alloc);
    make_first_stages(alloc, usage, &marks, &mut search)?;
    add_stages(
        alloc,
        usage,
        &marks,
        &mut search,
        MIDDLE_STAGES,
        MIDDLE_DIVISOR,
        MAX_DIVISOR,
        &mut found,
    )?;
    add_stages(
        alloc,
        usage,
        &marks,
        &mut search,
        LAST_STAGES,
        LAST_DIVISOR,
        LAST_DIVISOR,
        &mut found,
    )?;
    Ok(found)
}

/// The means for the link of this number.
fn means_on(
    alloc: Global,
    net: &Network,
    routing: &Routing,
    set: &DemandSet,
    link: u32,
) -> Result<Vec<ScaledMatrix>, Memory>
    requires network { IsTrue (is_well_formed net.now) }
    requires nodes { PairsJoinNodes net.now routing.now.routes }
    requires few { length routing.now.routes < 2 ^ 32 }
    requires set { HasSmallBounds set.now }
    ensures members { IfOk result (λ found. All (IsScaledMember set.now (length routing.now.routes)) found.items) }
    ensures count { IfOk result (λ found. AreMoreBy 8 set.now (length routing.now.routes) [] found.items) }
{
    let shares = shares_on(alloc, routing, link)?;
    let usage = LinkUsage {
        net,
        routing,
        set,
        shares: shares.as_slice(),
    };
    means_for(alloc, &usage)
}

/// Matrices of the set that use the link of the first block that needs most much more than another routing would have to: for each
/// of the last eight stages of sweeps of the link's weights the mean of the worst matrices that they meet, scaled to whole numbers and
/// moved into the set. There are fewer only where no matrix of whole numbers lies so, and none where no block that needs more than 0
/// has a link with a share of a pair.
///
/// How near they are to the worst matrices of the routing is not said. `Memory` comes where memory is wanting.
pub fn worst_matrices(
    alloc: Global,
    net: &Network,
    routing: &Routing,
    set: &DemandSet,
    blocks: &[Block],
) -> Result<Vec<ScaledMatrix>, Memory>
    requires network { IsTrue (is_well_formed net.now) }
    requires routing { IsPathRouting net.now routing.now.routes }
    requires nodes { PairsJoinNodes net.now routing.now.routes }
    requires few { length routing.now.routes < 2 ^ 32 }
    requires set { HasSmallBounds set.now }
    requires blocks { All (HasNumbers net.now) blocks.now }
    ensures members { IfOk result (λ found. All (IsScaledMember set.now (length routing.now.routes)) found.items) }
    ensures used { HasUsedBlock net.now routing.now.routes blocks.now →
        IfOk result (λ found. AreMoreBy 8 set.now (length routing.now.routes) [] found.items) }
    ensures unused { (HasUsedBlock net.now routing.now.routes blocks.now → ⊥) → IfOk result (λ found. found.items ≡ []) }
{
    let shares = Shares::new(alloc, net, routing)?;
    match neediest_link(net, &shares, blocks) {
        Some(link) => means_on(alloc, net, routing, set, link),
        None => Ok(Vec::new(alloc)),
    }
}
