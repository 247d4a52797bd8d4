//! The ways that are kept.
ghost use Rattle.std.specs.Prelude.{◌≡◌, ℕ, ◌*◌, ◌^◌, ◌<◌, ◌≤◌, All, IfOk, IsTrue, OnOk, length, slice_index};
ghost use Rattle.te_model.specs.declared.units.TheConstants.{SHARE_UNIT};
ghost use Rattle.te_model.specs.Network.{is_well_formed, link_count, node_count};
ghost use Rattle.centred_steps.specs.Loads.{AreSmall};
ghost use Rattle.centred_steps.specs.Ways.{AreLastLinks, way_to};
ghost use Rattle.kept_ways.specs.Amounts.{IsNearness};
ghost use Rattle.kept_ways.specs.KeptWays.{length_by, way_at, way_over, AreKeptWays, AreLengths, AreWaysWithin, IsKeptWay, IsWayKept};

use crate::amount::{amount_of, nearness};
use crate::lengths::{greatest_quotient, least_lengths, measure};
use crate::links::{add_load_on, links_to};
use crate::longest::longest_of_many;
use best_blocks::Scale;
use centred_steps::{clear_loads, narrowest_on};
use std::alloc::Global;
use te_model::{Items, Memory, Network};

/// A way that a search has shown for a pair.
#[derive(Drop)]
pub struct KeptWay {
    /// The place of the pair among those that have ways.
    pub place: usize,
    /// The share of the pair, in millionths.
    pub share: u64,
    /// The least capacity of the links.
    pub capacity: u64,
    /// The links from the last one back.
    pub links: Items<u32>,
}

/// Ways of pairs, and how long they are.
#[derive(Drop)]
pub struct KeptWays {
    /// The number of the pairs.
    pub pairs: usize,
    pub ways: Vec<KeptWay>,
    /// The length of each of the ways by the weights by which they were measured last, from 1 to 2^36.
    pub lengths: Vec<u64>,
}

/// Adds what the way, which is so long, sends to the loads of its links.
fn add_way(way: &KeptWay, distance: u64, scale: Scale, near: u128, loads: &mut [u128])
    requires pairs { (pairs : ℕ) × IsKeptWay pairs way.now }
    requires links { All (λ h. h < length loads.old) way.now.links }
    requires distance { distance ≤ 2 ^ 36 }
    requires scale { (scale.a ≤ SHARE_UNIT) × (scale.b ≤ 2 ^ 36) }
    requires near { IsNearness near }
    requires loads { AreSmall loads.old }
    ensures { AreSmall loads.new }
{
    let worth = u128::from(way.share) * u128::from(scale.b);
    let most = u128::from(scale.a) * u128::from(distance);
    let above = nearness(worth, most, near);
    if above > 0 {
        let amount = amount_of(way.capacity, above, most);
        add_load_on(way.links.as_slice(), amount, loads);
    }
}

/// Adds what each of the ways sends to the loads of its links.
fn add_ways(ways: &[KeptWay], lengths: &[u64], scale: Scale, near: u128, loads: &mut [u128])
    requires pairs { (pairs : ℕ) × All (IsKeptWay pairs) ways.now }
    requires links { All (λ w. All (λ h. h < length loads.old) w.links) ways.now }
    requires lengths { AreLengths ways.now lengths.now }
    requires scale { (scale.a ≤ SHARE_UNIT) × (scale.b ≤ 2 ^ 36) }
    requires near { IsNearness near }
    requires loads { AreSmall loads.old }
    ensures { AreSmall loads.new }
{
    for i in 0..ways.len() {
        add_way(&ways[i], lengths[i], scale, near, loads);
    }
}

impl KeptWays {
    /// No ways of so many pairs.
    pub fn new(alloc: Global, pairs: usize) -> KeptWays
        ensures kept { AreKeptWays result }
        ensures links { (n : ℕ) → AreWaysWithin n result }
        ensures pairs { result.pairs ≡ pairs }
    {
        KeptWays {
            pairs,
            ways: Vec::new(alloc),
            lengths: Vec::new(alloc),
        }
    }

    /// Keeps the way, which is so long: in place of a longest one of its pair, where the pair has as many as it keeps.
    fn put(&mut self, way: KeptWay, distance: u64) -> Result<(), Memory>
        requires way { IsKeptWay self.old.pairs way }
        requires distance { (1 ≤ distance) × (distance ≤ 2 ^ 36) }
        requires kept { AreKeptWays self.old }
        ensures kept { OnOk result (AreKeptWays self.new) }
        ensures links { (n : ℕ) → All (λ h. h < n) way.links → AreWaysWithin n self.old → OnOk result (AreWaysWithin n self.new) }
        ensures way { OnOk result (IsWayKept way distance self.old self.new) }
        ensures pairs { self.new.pairs ≡ self.old.pairs }
    {
        match longest_of_many(&self.ways, &self.lengths, way.place) {
            Some(i) => {
                self.ways[i] = way;
                self.lengths[i] = distance;
            }
            None => {
                self.ways.push(way)?;
                self.lengths.push(distance)?;
            }
        }
        Ok(())
    }

    /// Keeps the way to the node by last links, which is so long, for the pair at the place. Where the pair has sixteen ways, it
    /// takes the place of a longest one.
    ///
    /// `Memory` comes where memory is wanting.
    pub fn keep(
        &mut self,
        alloc: Global,
        net: &Network,
        lasts: &[Option<u32>],
        dst: u32,
        place: usize,
        share: u64,
        distance: u64,
    ) -> Result<(), Memory>
        requires network { IsTrue (is_well_formed net.now) }
        requires lasts { AreLastLinks net.now lasts.now }
        requires dst { dst < node_count net.now }
        requires place { place < self.old.pairs }
        requires share { share ≤ SHARE_UNIT }
        requires distance { (1 ≤ distance) × (distance ≤ 2 ^ 36) }
        requires kept { AreKeptWays self.old }
        requires links { AreWaysWithin (link_count net.now) self.old }
        ensures kept { OnOk result (AreKeptWays self.new) }
        ensures links { OnOk result (AreWaysWithin (link_count net.now) self.new) }
        ensures way { OnOk result (IsWayKept (way_over net.now (way_to net.now lasts.now (length lasts.now) dst) place share) distance self.old self.new) }
        ensures pairs { self.new.pairs ≡ self.old.pairs }
    {
        let links = links_to(alloc, net, lasts, dst)?;
        let capacity = narrowest_on(net, lasts, dst);
        let way = KeptWay {
            place,
            share,
            capacity,
            links: Items::new(links),
        };
        self.put(way, distance)
    }

    /// Measures the ways by the weights of the links. Takes no memory.
    pub fn measure(&mut self, weights: &[u64])
        requires kept { AreKeptWays self.old }
        requires links { AreWaysWithin (length weights.now) self.old }
        ensures kept { AreKeptWays self.new }
        ensures ways { self.new.ways ≡ self.old.ways }
        ensures pairs { self.new.pairs ≡ self.old.pairs }
        ensures lengths { (i : ℕ) → i < length self.new.ways.items →
            slice_index self.new.lengths.items i ≡ length_by weights.now (way_at self.new.ways.items i).links }
    {
        measure(&self.ways, weights, &mut self.lengths);
    }

    /// The greatest share by length of the ways: that share and that length, or 0 and 1 where there are none. Takes no memory.
    pub fn greatest_quotient(&self) -> Scale
        requires kept { AreKeptWays self.now }
        ensures greatest { (i : ℕ) → i < length self.now.ways.items →
            (way_at self.now.ways.items i).share * result.b ≤ result.a * slice_index self.now.lengths.items i }
        ensures a { result.a ≤ SHARE_UNIT }
        ensures b { (1 ≤ result.b) × (result.b ≤ 2 ^ 36) }
    {
        greatest_quotient(&self.ways, &self.lengths)
    }

    /// The least length of a way of each of the pairs, and 2^64 - 1 where there is none.
    ///
    /// `Memory` comes where memory is wanting.
    pub fn least_lengths(&self, alloc: Global) -> Result<Vec<u64>, Memory>
        requires kept { AreKeptWays self.now }
        ensures count { IfOk result (λ l. length l.items ≡ self.now.pairs) }
        ensures least { IfOk result (λ l. (i : ℕ) → i < length self.now.ways.items →
            slice_index l.items (way_at self.now.ways.items i).place ≤ slice_index self.now.lengths.items i) }
    {
        least_lengths(alloc, &self.ways, &self.lengths, self.pairs)
    }

    /// Writes the loads of the worst of all matrices for the scaled lengths, in which the ways send whose pairs are by them the
    /// dearest up to one part in `near`. Takes no memory.
    pub fn write_loads(&self, scale: Scale, near: u128, loads: &mut [u128])
        requires kept { AreKeptWays self.now }
        requires links { AreWaysWithin (length loads.old) self.now }
        requires scale { (scale.a ≤ SHARE_UNIT) × (scale.b ≤ 2 ^ 36) }
        requires near { IsNearness near }
        ensures { AreSmall loads.new }
    {
        clear_loads(loads);
        add_ways(&self.ways, &self.lengths, scale, near, loads);
    }
}
