//! Which links have failed in each step of a series, in time by the outages and the marks.

ghost use Rattle.std.specs.Prelude.{◌≡◌, ◌<◌, ◌+◌, ◌&&◌, ◌||◌, ◌==◌, ℕ, All, EachIndex, IfOk, IsTrue, length, map, max, nat_le, nat_lt, replicate, slice_index, vec_len};
ghost use Rattle.std.specs.List.{range_with_len};
ghost use Rattle.te_model.specs.Network.{is_well_formed};
ghost use Rattle.failure.specs.Series.{marks_of_steps, AreEndsByStep};

use crate::outage::{Failures, Outage};
use std::alloc::Global;
use std::marker::Model;
use te_model::{Items, Memory, Network};

// For each link one more than the last step of the longest of some outages, or 0 where there is none.
#[derive(Drop)]
struct Ends {
    list: Vec<u64>,
}

impl Model for Ends {
    ghost use Rattle.std.specs.Prelude.{List, ℕ};

    ghost Value = { List ℕ };

    ghost view = { λ e. e.list.items };
}

impl Ends {
    // Takes in an outage of the link up to the step `to`.
    fn lengthen(&mut self, link: usize, to: u32)
        ensures count { length self.new ≡ length self.old }
        ensures ends { (e x : ℕ) → e < length self.old → nat_lt x (slice_index self.new e) ≡ (nat_lt x (slice_index self.old e) || (link == e && nat_le x to)) }
    {
        if link < self.list.len() {
            self.list[link] = self.list[link].max(u64::from(to) + 1);
        }
    }
}

// For each step the ends of no outage.
fn no_ends(alloc: Global, steps: usize, links: usize) -> Result<Vec<Ends>, Memory>
    ensures { IfOk result (λ t. (vec_len t ≡ steps) × All (λ ends. ends ≡ replicate links 0) t.items) }
{
    let mut table = Vec::with_capacity(alloc, steps)?;
    for _ in 0..steps {
        let list = vec![in alloc; 0; links]?;
        table.push(Ends { list })?;
    }
    Ok(table)
}

// Takes each outage in among the ends of its first step.
fn enter(table: &mut [Ends], links: usize, outages: &[Outage])
    requires { All (λ ends. ends ≡ replicate links 0) table.old }
    ensures { AreEndsByStep links outages.now table.new }
{
    for outage in outages {
        let first = outage.from as usize;
        if first < table.len() {
            table[first].lengthen(outage.link as usize, outage.to);
        }
    }
}

// Takes the later end of the two for each link.
fn overtake(latest: &mut [u64], ends: &[u64])
    requires { length ends.now ≡ length latest.old }
    ensures { EachIndex latest.old (λ e. slice_index latest.new e ≡ max (slice_index latest.old e) (slice_index ends.now e)) }
{
    for e in 0..latest.len() {
        latest[e] = latest[e].max(ends[e]);
    }
}

// For each link whether its end lies behind the step.
fn marks_before(alloc: Global, ends: &[u64], step: usize) -> Result<Vec<bool>, Memory>
    ensures { IfOk result (λ marks. marks.items ≡ map (λ e. nat_lt step (slice_index ends.now e)) (range_with_len 0 (length ends.now))) }
{
    let mut marks = Vec::with_capacity(alloc, ends.len())?;
    for e in 0..ends.len() {
        marks.push((step as u64) < ends[e])?;
    }
    Ok(marks)
}

impl Failures {
    /// For each step of a series the marks of `marks`, in one pass over the outages.
    pub fn series(
        &self,
        alloc: Global,
        net: &Network,
        steps: usize,
    ) -> Result<Vec<Items<bool>>, Memory>
        ensures { IfOk result (λ series. series.items ≡ marks_of_steps net.now self.now steps) }
    {
        let links = net.links.as_slice().len();
        let mut table = no_ends(alloc, steps, links)?;
        enter(&mut table, links, self.list.as_slice());
        let mut latest = vec![in alloc; 0; links]?;
        let mut series = Vec::with_capacity(alloc, steps)?;
        for step in 0..steps {
            overtake(&mut latest, table[step].list.as_slice());
            let marks = marks_before(alloc, &latest, step)?;
            series.push(Items::new(marks))?;
        }
        Ok(series)
    }
}
