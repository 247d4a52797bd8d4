//! A table of demands by step and pair of nodes.

ghost use Rattle.std.specs.Prelude.{◌≡◌, ◌*◌, ◌≤◌, vec_len};
ghost use Rattle.te_model.specs.declared.limits.TheConstants.{FORMAT_2};

use crate::step_demands::StepDemands;
use std::alloc::Global;
use te_model::{Memory, Pair};

/// The number of steps that a series may have.
pub const MAX_STEPS: usize = 1024;

/// For each step the demand of each pair of nodes, where there is one, and the pairs that ever had one.
#[derive(Drop)]
pub struct Table {
    nodes: usize,
    steps: Vec<StepDemands>,
    declared: Vec<bool>,
    ghost few_nodes: { nodes ≤ FORMAT_2.nodes },
    ghost pairs: { vec_len declared ≡ nodes * nodes },
}

impl Table {
    ghost use Rattle.std.specs.Prelude.{ℕ, ◌≡◌, ◌≢◌, ◌+◌, ◌*◌, ◌<◌, ◌≤◌, OnOk, IfOk, [], false, max, vec_len};
    ghost use Rattle.te_model.specs.declared.limits.TheConstants.{FORMAT_2};
    ghost use Rattle.te_model.specs.declared.route.Pair.{Pair};
    ghost use Rattle.te_model.specs.Pairs.{IsNodePair};
    ghost use Rattle.traffic_matrix.specs.Pairs.{place_of_pair};
    ghost use Rattle.traffic_matrix.specs.Table.{demand_at, declared_at, IsGrown, IsPut};

    /// No step yet, between this many nodes.
    pub fn new(alloc: Global, nodes: usize) -> Result<Table, Memory>
        requires { nodes ≤ FORMAT_2.nodes }
        ensures nodes { IfOk result (λ t. t.nodes ≡ nodes) }
        ensures steps { IfOk result (λ t. t.steps.items ≡ []) }
        ensures declared { IfOk result (λ t. (pair : Pair) → IsNodePair nodes pair → declared_at t pair ≡ false) }
    {
        Ok(Table {
            nodes,
            steps: Vec::new(alloc),
            declared: vec![in alloc; false; nodes * nodes]?,
        })
    }

    /// The number of steps.
    pub fn steps(&self) -> usize
        ensures { result ≡ vec_len self.now.steps }
    {
        self.steps.len()
    }

    /// The number of nodes.
    pub fn nodes(&self) -> usize
        ensures { result ≡ self.now.nodes }
    {
        self.nodes
    }

    // The place of a pair among all pairs of nodes.
    fn place(&self, pair: Pair) -> usize
        requires { IsNodePair self.now.nodes pair }
        ensures value { result ≡ place_of_pair self.now.nodes pair }
        ensures within { result < self.now.nodes * self.now.nodes }
    {
        pair.src as usize * self.nodes + pair.dst as usize
    }

    /// The demand of a pair in a step.
    pub fn demand(&self, step: u64, pair: Pair) -> Option<u64>
        requires { IsNodePair self.now.nodes pair }
        ensures { result ≡ demand_at self.now step pair }
    {
        if step < self.steps.len() as u64 {
            self.steps[step as usize].demand(self.place(pair))
        } else {
            None
        }
    }

    /// Whether the pair had a demand in some step.
    pub fn is_declared(&self, pair: Pair) -> bool
        requires { IsNodePair self.now.nodes pair }
        ensures { result ≡ declared_at self.now pair }
    {
        self.declared[self.place(pair)]
    }

    // Adds steps without demands up to so many.
    fn grow(&mut self, alloc: Global, steps: usize) -> Result<(), Memory>
        requires { vec_len self.old.steps ≤ steps }
        ensures { OnOk result (IsGrown self.old self.new steps) }
    {
        for _step in self.steps.len()..steps {
            self.steps.push(StepDemands::new(alloc))?;
        }
        Ok(())
    }

    // Sets the demand of a pair in a step of the table.
    fn set(&mut self, step: usize, pair: Pair, demand: u64) -> Result<(), Memory>
        requires step { step < vec_len self.old.steps }
        requires pair { IsNodePair self.old.nodes pair }
        ensures put { OnOk result (IsPut self.old self.new step pair demand) }
        ensures steps { OnOk result (vec_len self.new.steps ≡ vec_len self.old.steps) }
    {
        let place = self.place(pair);
        let size = self.nodes * self.nodes;
        self.steps[step].put(size, place, demand)?;
        self.declared[place] = true;
        Ok(())
    }

    /// Sets the demand of a pair in a step. After want of memory the table is not to be used again.
    pub fn put(&mut self, alloc: Global, step: usize, pair: Pair, demand: u64) -> Result<(), Memory>
        requires step { step < 1024 }
        requires pair { IsNodePair self.old.nodes pair }
        ensures put { OnOk result (IsPut self.old self.new step pair demand) }
        ensures steps { OnOk result (vec_len self.new.steps ≡ max (step + 1) (vec_len self.old.steps)) }
    {
        if self.steps.len() <= step {
            self.grow(alloc, step + 1)?;
        }
        self.set(step, pair, demand)
    }

    /// Drops the demands of a step.
    pub fn forget(&mut self, alloc: Global, step: usize)
        requires { step < vec_len self.old.steps }
        ensures nodes { self.new.nodes ≡ self.old.nodes }
        ensures steps { vec_len self.new.steps ≡ vec_len self.old.steps }
        ensures others { (other : ℕ) (pair : Pair) → other ≢ step → demand_at self.new other pair ≡ demand_at self.old other pair }
    {
        self.steps[step] = StepDemands::new(alloc);
    }
}
