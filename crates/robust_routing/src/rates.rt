//! The paths of a pair, and at what rates it sends over them.
ghost use Rattle.std.specs.Prelude.{◌≡◌, ◌<◌, ◌≤◌, slice_set};
ghost use Rattle.robust_routing.specs.Rates.{IsFirstLeast};

use crate::moving::{level, move_rates};
use crate::sweep::{Sweep, WHOLE};
use std::alloc::Global;
use std::marker::Model;
use te_model::{Memory, Path, number_at};

/// The paths of a pair, and its rates.
#[derive(Drop)]
pub struct PathRates {
    paths: Vec<Path>,
    /// The rate over each path, in parts of `WHOLE`.
    rates: Vec<u64>,
}

impl Model for PathRates {
    ghost use Rattle.robust_routing.specs.Rates.{PathsWithRates};

    ghost Value = { PathsWithRates };

    ghost view = { λ r. record { paths = r.paths.items; rates = r.rates.items } };
}

/// The place of the first of so many least rates.
fn slowest(rates: &[u64], count: usize) -> usize
    requires { 1 ≤ count }
    ensures { IsFirstLeast rates.now count result }
{
    let mut place = 0;
    for i in 0..count {
        if number_at(rates, i) < number_at(rates, place) {
            place = i;
        }
    }
    place
}

/// Writes the number, where there is such a place.
fn set_number(numbers: &mut [u64], place: usize, number: u64)
    ensures { numbers.new ≡ slice_set numbers.old place number }
{
    if place < numbers.len() {
        numbers[place] = number;
    }
}

impl PathRates {
    ghost use Rattle.std.specs.Prelude.{◌≡◌, ◌∷◌, ◌^◌, [], IfOk, OnOk, length};
    ghost use Rattle.robust_routing.specs.Rates.{IsReplaced, IsScaled, IsStep, with_path, with_some_rate};
    ghost use Rattle.robust_routing.specs.Sweep.{IsSweep};

    /// The whole demand over one path. `Memory` comes where memory is wanting.
    pub fn new(alloc: Global, path: Path) -> Result<PathRates, Memory>
        ensures { IfOk result (λ r. r ≡ record { paths = path ∷ []; rates = 2 ^ 30 ∷ [] }) }
    {
        let mut paths = Vec::new(alloc);
        paths.push(path)?;
        let rates = vec![in alloc; WHOLE]?;
        Ok(PathRates { paths, rates })
    }

    /// Lends the paths.
    pub fn paths(&self) -> &[Path]
        ensures { result.now ≡ self.now.paths }
    {
        self.paths.as_slice()
    }

    /// Lends the rates.
    pub fn rates(&self) -> &[u64]
        ensures { result.now ≡ self.now.rates }
    {
        self.rates.as_slice()
    }

    /// Puts these rates, scaled to the whole demand, in place of the rates.
    pub fn set_rates(&mut self, rates: Vec<u64>)
        ensures paths { self.new.paths ≡ self.old.paths }
        ensures rates { IsScaled rates.items self.new.rates }
    {
        self.rates = rates;
        level(&mut self.rates);
    }

    /// Moves the rates by the costs of their paths.
    pub fn shift(&mut self, sweep: Sweep, costs: &[u64])
        requires { IsSweep sweep }
        ensures paths { self.new.paths ≡ self.old.paths }
        ensures rates { IsStep sweep costs.now self.old.rates self.new.rates }
    {
        move_rates(sweep, costs, &mut self.rates);
    }

    /// Adds a path with this rate. `Memory` comes where memory is wanting.
    pub fn push(&mut self, path: Path, rate: u64) -> Result<(), Memory>
        ensures { OnOk result (self.new ≡ with_path self.old path rate) }
    {
        self.paths.push(path)?;
        self.rates.push(rate)?;
        Ok(())
    }

    /// Puts a path with this rate in place of the first of the least rate, of which there is at least one.
    pub fn replace_slowest(&mut self, path: Path, rate: u64)
        requires { 1 ≤ length self.old.paths }
        ensures { IsReplaced path rate self.old self.new }
    {
        let place = slowest(&self.rates, self.paths.len());
        self.paths[place] = path;
        set_number(&mut self.rates, place, rate);
    }

    /// Gives a path that has no rate this one, where there is such a place.
    pub fn wake(&mut self, place: usize, rate: u64)
        ensures { self.new ≡ with_some_rate self.old place rate }
    {
        if number_at(&self.rates, place) == 0 {
            set_number(&mut self.rates, place, rate);
        }
    }
}
