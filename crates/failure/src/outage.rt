//! Outages of links, and which links have failed in a step.

ghost use Rattle.std.specs.Prelude.{◌≡◌, ◌<◌, ℕ, All, IfOk, IsTrue, false, map, length, slice_index_or};
ghost use Rattle.std.specs.List.{range_with_len, list_any};
ghost use Rattle.te_model.specs.Network.{is_well_formed, link_count};
ghost use Rattle.failure.specs.Failed.{is_during, has_failed};

use std::alloc::Global;
use te_model::{Items, Memory, Network};

/// A link fails in the steps from `from` to `to`, both included.
#[derive(Clone, Copy, Debug, PartialEq, Eq)]
pub struct Outage {
    pub from: u32,
    pub to: u32,
    pub link: u32,
}

/// The outages of a failure file, in the order of its rows.
#[derive(Drop)]
pub struct Failures {
    pub list: Items<Outage>,
}

impl Outage {
    // Whether it is an outage of this link in this step.
    fn is_during(&self, step: u32, link: u32) -> bool
        ensures { result ≡ is_during step link self.now }
    {
        self.link == link && self.from <= step && step <= self.to
    }
}

// Marks the links that have an outage with the step in it.
fn mark(marks: &mut [bool], outages: &[Outage], step: u32)
    requires { All (λ m. m ≡ false) marks.old }
    ensures { (e : ℕ) → e < length marks.old → slice_index_or marks.new e false ≡ list_any (is_during step e) outages.now }
{
    for outage in outages {
        let link = outage.link as usize;
        if link < marks.len() && outage.is_during(step, outage.link) {
            marks[link] = true;
        }
    }
}

impl Failures {
    /// Whether some outage of the link has the step between its first and its last.
    pub fn failed_at(&self, step: u32, link: u32) -> bool
        ensures { result ≡ has_failed self.now step link }
    {
        self.list
            .as_slice()
            .iter()
            .any(|outage| outage.is_during(step, link))
    }

    /// For each link of the network whether it has failed in the step, in one pass over the outages.
    pub fn marks(&self, alloc: Global, net: &Network, step: u32) -> Result<Vec<bool>, Memory>
        requires { IsTrue (is_well_formed net.now) }
        ensures { IfOk result (λ marks. marks.items ≡ map (has_failed self.now step) (range_with_len 0 (link_count net.now))) }
    {
        let mut marks = vec![in alloc; false; net.links.as_slice().len()]?;
        mark(&mut marks, self.list.as_slice(), step);
        Ok(marks)
    }
}
