//! Weights of blocks as offers for their links.
ghost use Rattle.std.specs.Prelude.{◌≡◌, ◌^◌, ◌<◌, ◌≤◌, ℕ, All, Contains, IfOk, OnOk, IsTrue, true, false, length, slice_index};
ghost use Rattle.te_model.specs.Network.{is_well_formed, link_count};
ghost use Rattle.best_blocks.specs.Conditions.{IsRoutingWithin};
ghost use Rattle.best_blocks.specs.Need.{HasNumbers};
ghost use Rattle.ratio_certificate.specs.Offers.{AreOffers};
ghost use Rattle.ratio_certificate.specs.Weighting.{AreWeights};
ghost use Rattle.ratio_tightening.specs.Offering.{AreOffered, KeepsOffers, offer_of};

use ratio_certificate::{Offer, make};
use routing::Routing;
use std::alloc::Global;
use te_model::{Block, DemandSet, Items, Memory, Network};

/// The greatest weight that is offered.
const MAX_WEIGHT: u64 = 1 << 28;

/// Weights below this are offered with more digits too.
const FINE_WEIGHT: u64 = 1 << 20;

// The greatest of the weights, or 1 where none is greater.
fn greatest_weight(weights: &[u64]) -> u64
    ensures { 1 ≤ result }
{
    let mut greatest = 1;
    for weight in weights {
        greatest = greatest.max(*weight);
    }
    greatest
}

// The weight times the factor, moved into 1 to 2^28.
fn scaled_weight(weight: u64, factor: u64) -> u64
    requires weight { weight ≤ 2 ^ 28 }
    requires factor { factor ≤ 2 ^ 20 }
    ensures { (1 ≤ result) × (result ≤ 2 ^ 28) }
{
    (weight * factor).max(1).min(MAX_WEIGHT)
}

// The weights times the factor, each moved into 1 to 2^28.
fn scaled_weights(alloc: Global, weights: &[u64], factor: u64) -> Result<Vec<u64>, Memory>
    requires weights { (h : ℕ) → slice_index weights.now h ≤ 2 ^ 28 }
    requires factor { factor ≤ 2 ^ 20 }
    ensures count { IfOk result (λ w. length w.items ≡ length weights.now) }
    ensures each { IfOk result (λ w. All (λ x. (1 ≤ x) × (x ≤ 2 ^ 28)) w.items) }
{
    let mut scaled = Vec::with_capacity(alloc, weights.len())?;
    for h in 0..weights.len() {
        scaled.push(scaled_weight(weights[h], factor))?;
    }
    Ok(scaled)
}

// Whether each of the weights is 1 or more.
fn are_positive(weights: &[u64]) -> bool
    ensures yes { result ≡ true → (h : ℕ) → h < length weights.now → 1 ≤ slice_index weights.now h }
    ensures no { result ≡ false → (h : ℕ) × (h < length weights.now) × (slice_index weights.now h ≡ 0) }
{
    for h in 0..weights.len() {
        if weights[h] == 0 {
            return false;
        }
    }
    true
}

// Offers the weights for the link.
fn offer_weights(
    offers: &mut Vec<Offer>,
    net: &Network,
    link: u32,
    weights: Vec<u64>,
) -> Result<(), Memory>
    requires weights { AreWeights net.now weights.items }
    requires offers { AreOffers net.now offers.old.items }
    ensures offers { OnOk result (AreOffers net.now offers.new.items) }
    ensures kept { OnOk result (KeepsOffers offers.old.items offers.new.items) }
    ensures offered { OnOk result (Contains offers.new.items (record { link = link; weights = weights.items })) }
{
    offers.push(Offer {
        link,
        weights: Items::new(weights),
    })?;
    Ok(())
}

// Offers the weights of the block times the factor for its link.
fn offer_scaled(
    alloc: Global,
    offers: &mut Vec<Offer>,
    net: &Network,
    block: &Block,
    factor: u64,
) -> Result<(), Memory>
    requires block { HasNumbers net.now block.now }
    requires factor { factor ≤ 2 ^ 20 }
    requires offers { AreOffers net.now offers.old.items }
    ensures offers { OnOk result (AreOffers net.now offers.new.items) }
    ensures kept { OnOk result (KeepsOffers offers.old.items offers.new.items) }
{
    let weights = scaled_weights(alloc, block.weights.as_slice(), factor)?;
    offer_weights(offers, net, block.link, weights)
}

// Offers the weights of the block for its link as they stand, if each is 1 or more, and says so.
fn offer_positive(
    alloc: Global,
    offers: &mut Vec<Offer>,
    net: &Network,
    block: &Block,
) -> Result<bool, Memory>
    requires block { HasNumbers net.now block.now }
    requires offers { AreOffers net.now offers.old.items }
    ensures offers { OnOk result (AreOffers net.now offers.new.items) }
    ensures kept { OnOk result (KeepsOffers offers.old.items offers.new.items) }
    ensures offered { OnOk result (AreWeights net.now block.now.weights → Contains offers.new.items (offer_of block.now)) }
{
    if !are_positive(block.weights.as_slice()) {
        return Ok(false);
    }
    let weights = Vec::from_slice(alloc, block.weights.as_slice())?;
    offer_weights(offers, net, block.link, weights)?;
    Ok(true)
}

// Offers the weights of the block for its link, with 1 in place of 0, and where they are small a multiple of them, which is rounded less.
fn offer_block(
    alloc: Global,
    offers: &mut Vec<Offer>,
    net: &Network,
    block: &Block,
) -> Result<(), Memory>
    requires block { HasNumbers net.now block.now }
    requires offers { AreOffers net.now offers.old.items }
    ensures offers { OnOk result (AreOffers net.now offers.new.items) }
    ensures kept { OnOk result (KeepsOffers offers.old.items offers.new.items) }
    ensures offered { OnOk result (AreWeights net.now block.now.weights → Contains offers.new.items (offer_of block.now)) }
{
    let positive = offer_positive(alloc, offers, net, block)?;
    let factor = FINE_WEIGHT / greatest_weight(block.weights.as_slice());
    if positive && factor <= 1 {
        return Ok(());
    }
    offer_scaled(alloc, offers, net, block, factor.max(1))?;
    Ok(())
}

/// Offers the weights of each of the blocks for its link.
pub fn offer_blocks(
    alloc: Global,
    offers: &mut Vec<Offer>,
    net: &Network,
    blocks: &[Block],
) -> Result<(), Memory>
    requires blocks { All (HasNumbers net.now) blocks.now }
    requires offers { AreOffers net.now offers.old.items }
    ensures offers { OnOk result (AreOffers net.now offers.new.items) }
    ensures kept { OnOk result (KeepsOffers offers.old.items offers.new.items) }
    ensures offered { OnOk result (AreOffered net.now offers.new.items blocks.now) }
{
    for block in blocks {
        offer_block(alloc, offers, net, block)?;
    }
    Ok(())
}

// Offers the weights that are found for all matrices.
fn offer_all_matrices(
    alloc: Global,
    offers: &mut Vec<Offer>,
    net: &Network,
    routing: &Routing,
) -> Result<(), Memory>
    requires network { IsTrue (is_well_formed net.now) }
    requires links { 1 ≤ link_count net.now }
    requires routing { IsRoutingWithin net.now routing.now.routes }
    requires offers { AreOffers net.now offers.old.items }
    ensures offers { OnOk result (AreOffers net.now offers.new.items) }
    ensures kept { OnOk result (KeepsOffers offers.old.items offers.new.items) }
{
    let all = make(alloc, net, routing, DemandSet::All)?;
    offer_blocks(alloc, offers, net, all.blocks.as_slice())
}

/// Between bounds offers the weights that are found for all matrices.
pub fn offer_for_bounds(
    alloc: Global,
    offers: &mut Vec<Offer>,
    net: &Network,
    routing: &Routing,
    set: &DemandSet,
) -> Result<(), Memory>
    requires network { IsTrue (is_well_formed net.now) }
    requires links { 1 ≤ link_count net.now }
    requires routing { IsRoutingWithin net.now routing.now.routes }
    requires offers { AreOffers net.now offers.old.items }
    ensures offers { OnOk result (AreOffers net.now offers.new.items) }
    ensures kept { OnOk result (KeepsOffers offers.old.items offers.new.items) }
{
    match set {
        DemandSet::All => Ok(()),
        DemandSet::Margin { .. } => offer_all_matrices(alloc, offers, net, routing),
        DemandSet::Box { .. } => offer_all_matrices(alloc, offers, net, routing),
    }
}
