//! What holds of every step.
ghost use Rattle.flow_sim.specs.Asked.{AsksNearLoad};
ghost use Rattle.flow_sim.specs.Asking.{ServesFairly};
ghost use Rattle.flow_sim.specs.Traffic.{step_setting};

use local_recovery::Recovered;
use te_model::{Matrix, Network};

/// In each round the arrivals at a link are the units of those paths whose hop it is, in order of pair and path. A failed link serves
/// none of them, and another serves fair shares of what it has left.
pub fn links_serve_fairly(net: &Network, failed: &[bool], rates: &Recovered, matrix: &Matrix)
    ensures { ServesFairly (step_setting net.now failed.now rates.now.routes matrix.now.demand) }
{}

/// What each link is asked to carry is the sum of demand times weight over the paths that hold it, to one unit a path.
pub fn links_are_asked_near_load(rates: &Recovered, matrix: &Matrix)
    ensures { AsksNearLoad rates.now.routes matrix.now.demand }
{}
