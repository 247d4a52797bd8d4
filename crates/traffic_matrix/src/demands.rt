//! The demands of the rows that were read.

ghost use Rattle.std.specs.Prelude.{◌≡◌, ◌<◌, ◌≤◌, All, List, [], ◌∷◌, OnOk, IfOk, IfErr, Err, Ok};
ghost use Rattle.te_model.specs.declared.limits.TheConstants.{FORMAT_2};
ghost use Rattle.te_model.specs.Pairs.{IsNodePair};
ghost use Rattle.traffic_matrix.specs.declared.entry.Entry.{Entry};
ghost use Rattle.traffic_matrix.specs.Rows.{with_accepted_entry};
ghost use Rattle.traffic_matrix.specs.Series.{declared_pairs, matrix_of, series_of};
ghost use Rattle.traffic_matrix.specs.Shows.{Shows, ShowsStep};

use crate::entry::Entry;
use crate::fault::MatrixFault;
use crate::series::Series;
use crate::table::{MAX_STEPS, Table};
use std::alloc::Global;
use te_model::{Items, Matrix, Memory, Pair, Pairs};

/// The demands of the rows so far, and the step of the latest.
#[derive(Drop)]
pub struct Demands {
    table: Table,
    latest: u64,
}

impl Demands {
    /// No row yet, between this many nodes.
    pub fn new(alloc: Global, nodes: usize) -> Result<Demands, Memory>
        requires { nodes ≤ FORMAT_2.nodes }
        ensures nodes { IfOk result (λ d. d.table.nodes ≡ nodes) }
        ensures shows { IfOk result (Shows []) }
    {
        Ok(Demands {
            table: Table::new(alloc, nodes)?,
            latest: 0,
        })
    }

    /// Whether the row can stand after those before it, or the first of its faults.
    pub fn accept(&self, entry: Entry, row: u64) -> Result<(), MatrixFault>
        requires { IsNodePair self.now.table.nodes entry.pair }
        ensures accepted { OnOk result ((entries : List Entry) → Shows entries self.now → with_accepted_entry entries row entry ≡ Ok (entry ∷ entries)) }
        ensures few { OnOk result (entry.step < 1024) }
        ensures refused { IfErr result (λ f. (entries : List Entry) → Shows entries self.now → with_accepted_entry entries row entry ≡ Err f) }
    {
        if entry.step < self.latest {
            return Err(MatrixFault::Order(row));
        }
        if self.table.demand(entry.step, entry.pair).is_some() {
            return Err(MatrixFault::Repeated(row));
        }
        if entry.pair.src == entry.pair.dst {
            return Err(MatrixFault::SelfPair(row));
        }
        if entry.step >= MAX_STEPS as u64 {
            return Err(MatrixFault::TooManySteps(row));
        }
        Ok(())
    }

    /// Adds a row. After want of memory the demands are not to be used again.
    pub fn put(&mut self, alloc: Global, entry: Entry) -> Result<(), Memory>
        requires step { entry.step < 1024 }
        requires pair { IsNodePair self.old.table.nodes entry.pair }
        ensures nodes { OnOk result (self.new.table.nodes ≡ self.old.table.nodes) }
        ensures shows { OnOk result ((entries : List Entry) → Shows entries self.old → Shows (entry ∷ entries) self.new) }
    {
        self.table
            .put(alloc, entry.step as usize, entry.pair, entry.demand)?;
        self.latest = entry.step;
        Ok(())
    }

    // The pairs of the rows, ascending.
    fn pairs(&self, alloc: Global) -> Result<Vec<Pair>, Memory>
        ensures pairs { IfOk result (λ v. (entries : List Entry) → Shows entries self.now → v.items ≡ declared_pairs self.now.table.nodes entries) }
        ensures within { IfOk result (λ v. All (IsNodePair self.now.table.nodes) v.items) }
    {
        let nodes = self.table.nodes();
        let mut pairs = Vec::new(alloc);
        for place in 0..nodes * nodes {
            let pair = Pair {
                src: (place / nodes) as u32,
                dst: (place % nodes) as u32,
            };
            if self.table.is_declared(pair) {
                pairs.push(pair)?;
            }
        }
        Ok(pairs)
    }

    // The demands of the pairs in a step, 0 where no row has one.
    fn matrix(&self, alloc: Global, pairs: &[Pair], step: usize) -> Result<Matrix, Memory>
        requires { All (IsNodePair self.now.table.nodes) pairs.now }
        ensures { IfOk result (λ m. (entries : List Entry) → ShowsStep entries self.now step → m ≡ matrix_of pairs.now entries step) }
    {
        let mut demand = Vec::with_capacity(alloc, pairs.len())?;
        for pair in pairs {
            demand.push(self.table.demand(step as u64, *pair).unwrap_or(0))?;
        }
        Ok(Matrix {
            demand: Items::new(demand),
        })
    }

    /// The series that the rows make. The demands of each step are dropped as soon as its matrix is made.
    pub fn series(mut self, alloc: Global) -> Result<Series, Memory>
        ensures { IfOk result (λ s. (entries : List Entry) → Shows entries self → s ≡ series_of self.table.nodes entries) }
    {
        let pairs = self.pairs(alloc)?;
        let mut steps = Vec::with_capacity(alloc, self.table.steps())?;
        for step in 0..self.table.steps() {
            steps.push(self.matrix(alloc, pairs.as_slice(), step)?)?;
            self.table.forget(alloc, step);
        }
        Ok(Series {
            pairs: Pairs {
                list: Items::new(pairs),
            },
            steps: Items::new(steps),
        })
    }
}
