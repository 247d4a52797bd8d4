//! Changes of one weight that improve a need.
ghost use Rattle.std.specs.Prelude.{◌≡◌, ◌*◌, ◌+◌, ◌/◌, ◌^◌, ◌<◌, ◌≤◌, ℕ, IfOk, IfSome, IfNone, IsTrue, true, false, length, slice_index, slice_set};
ghost use Rattle.te_model.specs.Network.{is_well_formed, link_count, node_count};
ghost use Rattle.best_blocks.specs.Rows.{is_marked};
ghost use Rattle.ratio_certificate.specs.Changing.{weights_of, AreChanges, HelpsNotIn, IsImprovementIn, IsSettledIn, IsTightFrom};
ghost use Rattle.ratio_certificate.specs.Critical.{is_tight_in};
ghost use Rattle.ratio_certificate.specs.Polished.{ImprovesBy64th};
ghost use Rattle.ratio_certificate.specs.Problems.{IsMetricOf, IsWeightingOf};

use crate::problem::Problem;
use crate::weighting::{Weighting, weighting_of};
use best_blocks::{Metric, Scale, SharedLink, metric_after, need_by};
use shortest_path::is_sum;
use std::alloc::Global;
use te_model::{Memory, Network};

/// The greatest weight that is doubled.
pub const MAX_DOUBLED: u64 = 1 << 27;

/// The least weight that is halved.
pub const MIN_HALVED: u64 = 2;

/// Whether `y` is below `x` by a 64th of `x` at least.
pub fn improves(x: u128, y: u128) -> bool
    ensures better { result ≡ true → ImprovesBy64th x y }
    ensures not { result ≡ false → ImprovesBy64th x y → ⊥ }
{
    y < x && x - y > (x - 1) / 64
}

/// Whether the link is tight in the row: whether a least way ends with it.
fn is_tight_in(net: &Network, row: &[Option<u64>], weights: &[u64], link: u32) -> bool
    requires network { IsTrue (is_well_formed net.now) }
    requires row { length row.now ≡ node_count net.now }
    requires weights { length weights.now ≡ link_count net.now }
    requires link { link < link_count net.now }
    ensures { result ≡ is_tight_in net.now row.now weights.now link }
{
    let ends = net.links.as_slice()[link as usize];
    let (tail, head) = (ends.tail as usize, ends.head as usize);
    is_sum(row[head], row[tail], weights[link as usize])
}

/// The changes of one weight of a link, by the metric of its weights, and the need that they are to improve.
#[derive(Clone, Copy)]
pub struct Changes<'a> {
    pub problem: Problem<'a>,
    pub shared: &'a SharedLink,
    pub metric: &'a Metric,
    /// The best scale of the weights, and what they need by it.
    pub scale: Scale,
    pub need: u128,
    /// A mark for each node, on the sources of the critical pairs.
    pub critical: &'a [bool],
}

/// Other weights, and the link on which they differ.
#[derive(Drop)]
pub struct Change {
    pub link: usize,
    pub weighting: Weighting,
}

impl<'a> Changes<'a> {
    /// The weights with another one on the link.
    fn weights_with(&self, alloc: Global, link: u32, weight: u64) -> Result<Vec<u64>, Memory>
        requires changes { AreChanges self.now }
        requires link { link < link_count self.now.problem.net.now }
        ensures { IfOk result (λ w. w.items ≡ slice_set (weights_of self.now) link weight) }
    {
        let mut weights = Vec::from_slice(alloc, self.metric.weights.as_slice())?;
        weights[link as usize] = weight;
        Ok(weights)
    }

    /// The metric of the weights with another one on the link.
    fn metric_with(&self, alloc: Global, link: u32, weight: u64) -> Result<Metric, Memory>
        requires changes { AreChanges self.now }
        requires link { link < link_count self.now.problem.net.now }
        requires weight { weight ≤ 2 ^ 28 }
        ensures metric { IfOk result (IsMetricOf self.now.problem self.now.shared.now) }
        ensures weights { IfOk result (λ m. m.weights ≡ slice_set (weights_of self.now) link weight) }
    {
        let weights = self.weights_with(alloc, link, weight)?;
        let mut searches = None;
        metric_after(
            alloc,
            self.problem.net,
            self.problem.routing,
            self.shared.marks.as_slice(),
            &mut searches,
            self.metric,
            &[link],
            weights,
        )
    }

    /// The weights with another one on the link, and what they need.
    fn weighting_with(&self, alloc: Global, link: u32, weight: u64) -> Result<Weighting, Memory>
        requires changes { AreChanges self.now }
        requires link { link < link_count self.now.problem.net.now }
        requires weight { (1 ≤ weight) × (weight ≤ 2 ^ 28) }
        ensures link { IfOk result (λ w. w.link ≡ self.now.shared.now.link) }
        ensures weights { IfOk result (λ w. w.weights ≡ slice_set (weights_of self.now) link weight) }
        ensures weighting { IfOk result (IsWeightingOf self.now.problem) }
    {
        let metric = self.metric_with(alloc, link, weight)?;
        weighting_of(alloc, &self.problem, self.shared, &metric)
    }

    /// The weights with another one on the link, if that improves the need.
    fn try_weight(&self, alloc: Global, link: u32, weight: u64) -> Result<Option<Weighting>, Memory>
        requires changes { AreChanges self.now }
        requires link { link < link_count self.now.problem.net.now }
        requires weight { (1 ≤ weight) × (weight ≤ 2 ^ 28) }
        ensures some { IfOk result (λ o. IfSome o (IsImprovementIn self.now)) }
        ensures none { IfOk result (λ o. IfNone o (HelpsNotIn self.now (slice_set (weights_of self.now) link weight))) }
    {
        let other = self.weighting_with(alloc, link, weight)?;
        if improves(self.need, other.need) {
            Ok(Some(other))
        } else {
            Ok(None)
        }
    }

    /// Whether the link is tight in the row of a critical source.
    fn is_critical(&self, link: u32) -> bool
        requires changes { AreChanges self.now }
        requires link { link < link_count self.now.problem.net.now }
        ensures some { result ≡ true → (i : ℕ) × (is_marked self.now.critical.now i ≡ true) × IsTightFrom self.now i link }
        ensures none { result ≡ false → (i : ℕ) → is_marked self.now.critical.now i ≡ true → IsTightFrom self.now i link → ⊥ }
    {
        let (net, weights) = (self.problem.net, self.metric.weights.as_slice());
        let rows = self.metric.rows.as_slice();
        for i in 0..self.critical.len() {
            if self.critical[i] && is_tight_in(net, rows[i].as_slice(), weights, link) {
                return true;
            }
        }
        false
    }

    /// The weights with a greater one on the link, if that improves the need. Where no critical pair goes farther, it does not.
    fn try_greater(
        &self,
        alloc: Global,
        link: u32,
        weight: u64,
    ) -> Result<Option<Weighting>, Memory>
        requires changes { AreChanges self.now }
        requires link { link < link_count self.now.problem.net.now }
        requires weight { (slice_index (weights_of self.now) link ≤ weight) × (weight ≤ 2 ^ 28) }
        ensures some { IfOk result (λ o. IfSome o (IsImprovementIn self.now)) }
        ensures none { IfOk result (λ o. IfNone o (HelpsNotIn self.now (slice_set (weights_of self.now) link weight))) }
    {
        if self.is_critical(link) {
            self.try_weight(alloc, link, weight)
        } else {
            Ok(None)
        }
    }

    /// The weights with a smaller one on the link, if that improves the need. No pair goes farther by them, so that they need at
    /// least what they would by the scale that stands.
    fn try_smaller(
        &self,
        alloc: Global,
        link: u32,
        weight: u64,
    ) -> Result<Option<Weighting>, Memory>
        requires changes { AreChanges self.now }
        requires link { link < link_count self.now.problem.net.now }
        requires weight { (1 ≤ weight) × (weight ≤ slice_index (weights_of self.now) link) }
        ensures some { IfOk result (λ o. IfSome o (IsImprovementIn self.now)) }
        ensures none { IfOk result (λ o. IfNone o (HelpsNotIn self.now (slice_set (weights_of self.now) link weight))) }
    {
        let weights = self.weights_with(alloc, link, weight)?;
        let least = need_by(self.problem.net, self.shared.link, &weights, self.scale);
        if improves(self.need, least) {
            self.try_weight(alloc, link, weight)
        } else {
            Ok(None)
        }
    }

    /// The weights with that of the link doubled, if that improves the need.
    fn try_double(&self, alloc: Global, link: u32) -> Result<Option<Weighting>, Memory>
        requires changes { AreChanges self.now }
        requires link { link < link_count self.now.problem.net.now }
        ensures some { IfOk result (λ o. IfSome o (IsImprovementIn self.now)) }
        ensures none { IfOk result (λ o. IfNone o (slice_index (weights_of self.now) link ≤ 2 ^ 27 →
            HelpsNotIn self.now (slice_set (weights_of self.now) link (2 * slice_index (weights_of self.now) link)))) }
    {
        let weight = self.metric.weights.as_slice()[link as usize];
        if weight <= MAX_DOUBLED {
            self.try_greater(alloc, link, 2 * weight)
        } else {
            Ok(None)
        }
    }

    /// The weights with that of the link halved and rounded up, if that improves the need.
    fn try_half(&self, alloc: Global, link: u32) -> Result<Option<Weighting>, Memory>
        requires changes { AreChanges self.now }
        requires link { link < link_count self.now.problem.net.now }
        ensures some { IfOk result (λ o. IfSome o (IsImprovementIn self.now)) }
        ensures none { IfOk result (λ o. IfNone o (2 ≤ slice_index (weights_of self.now) link →
            HelpsNotIn self.now (slice_set (weights_of self.now) link ((slice_index (weights_of self.now) link + 1) / 2)))) }
    {
        let weight = self.metric.weights.as_slice()[link as usize];
        if weight >= MIN_HALVED {
            self.try_smaller(alloc, link, (weight + 1) / 2)
        } else {
            Ok(None)
        }
    }

    /// The weights with that of the link doubled or halved, if one of these improves the need.
    fn try_link(&self, alloc: Global, link: u32) -> Result<Option<Weighting>, Memory>
        requires changes { AreChanges self.now }
        requires link { link < link_count self.now.problem.net.now }
        ensures some { IfOk result (λ o. IfSome o (IsImprovementIn self.now)) }
        ensures none { IfOk result (λ o. IfNone o (IsSettledIn self.now link)) }
    {
        match self.try_double(alloc, link)? {
            Some(other) => Ok(Some(other)),
            None => self.try_half(alloc, link),
        }
    }

    /// The first change that improves the need, on the links from `first` to before `last`.
    fn try_links(&self, alloc: Global, first: usize, last: usize) -> Result<Option<Change>, Memory>
        requires changes { AreChanges self.now }
        requires last { last ≤ link_count self.now.problem.net.now }
        ensures some { IfOk result (λ o. IfSome o (λ c. IsImprovementIn self.now c.weighting)) }
        ensures link { IfOk result (λ o. IfSome o (λ c. c.link < link_count self.now.problem.net.now)) }
        ensures none { IfOk result (λ o. IfNone o ((h : ℕ) → first ≤ h → h < last → IsSettledIn self.now h)) }
    {
        for h in first..last {
            match self.try_link(alloc, h as u32)? {
                Some(weighting) => return Ok(Some(Change { link: h, weighting })),
                None => {}
            }
        }
        Ok(None)
    }

    /// A change that improves the need, sought from the link `from` on and then from the first, or `None` where no change does.
    pub fn find(&self, alloc: Global, from: usize) -> Result<Option<Change>, Memory>
        requires changes { AreChanges self.now }
        requires from { from ≤ link_count self.now.problem.net.now }
        ensures some { IfOk result (λ o. IfSome o (λ c. IsImprovementIn self.now c.weighting)) }
        ensures link { IfOk result (λ o. IfSome o (λ c. c.link < link_count self.now.problem.net.now)) }
        ensures none { IfOk result (λ o. IfNone o ((h : ℕ) → h < link_count self.now.problem.net.now → IsSettledIn self.now h)) }
    {
        let links = self.problem.net.links.as_slice().len();
        match self.try_links(alloc, from, links)? {
            Some(change) => Ok(Some(change)),
            None => self.try_links(alloc, 0, from),
        }
    }
}
