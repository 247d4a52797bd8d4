//! The demands of one step.

ghost use Rattle.std.specs.Prelude.{◌≤◌, vec_len};

use std::alloc::Global;
use te_model::Memory;

/// The demands of a step at the places of their pairs. It takes no memory until a pair has one.
#[derive(Drop)]
pub struct StepDemands {
    given: Vec<bool>,
    demands: Vec<u64>,
    ghost size: { vec_len given ≤ vec_len demands },
}

impl StepDemands {
    ghost use Rattle.std.specs.Prelude.{ℕ, ◌≡◌, ◌==◌, ◌<◌, ◌≤◌, OnOk, None, Some, vec_len, if◌then◌else◌};
    ghost use Rattle.traffic_matrix.specs.Table.{demand_of_place};

    /// No demand.
    pub fn new(alloc: Global) -> StepDemands
        ensures { (place : ℕ) → demand_of_place result place ≡ None }
    {
        StepDemands {
            given: Vec::new(alloc),
            demands: Vec::new(alloc),
        }
    }

    /// The demand at a place.
    pub fn demand(&self, place: usize) -> Option<u64>
        ensures { result ≡ demand_of_place self.now place }
    {
        if place < self.given.len() && self.given[place] {
            Some(self.demands[place])
        } else {
            None
        }
    }

    // Makes room for so many places.
    fn widen(&mut self, size: usize) -> Result<(), Memory>
        requires { vec_len self.old.given ≤ size }
        ensures size { OnOk result (vec_len self.new.given ≡ size) }
        ensures demands { OnOk result ((place : ℕ) → demand_of_place self.new place ≡ demand_of_place self.old place) }
    {
        self.demands.resize(size, 0)?;
        self.given.resize(size, false)?;
        Ok(())
    }

    // Sets the demand at a place that has room.
    fn set(&mut self, place: usize, demand: u64)
        requires { place < vec_len self.old.given }
        ensures { (other : ℕ) → demand_of_place self.new other ≡ (if place == other then Some demand else demand_of_place self.old other) }
    {
        self.demands[place] = demand;
        self.given[place] = true;
    }

    /// Sets the demand at one of so many places. After want of memory the demands are not to be used again.
    pub fn put(&mut self, size: usize, place: usize, demand: u64) -> Result<(), Memory>
        requires { place < size }
        ensures { OnOk result ((other : ℕ) → demand_of_place self.new other ≡ (if place == other then Some demand else demand_of_place self.old other)) }
    {
        if self.given.len() <= place {
            self.widen(size)?;
        }
        self.set(place, demand);
        Ok(())
    }
}
