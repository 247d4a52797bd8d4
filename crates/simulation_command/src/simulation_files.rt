//! The kinds of files of a simulation: a topology that has to be a certificate's network, and matrices of pairs of its routing alone.
ghost use Rattle.std.specs.Prelude.{◌≡◌, All, IsTrue};
ghost use Rattle.te_model.specs.Network.{is_well_formed, node_count};
ghost use Rattle.te_model.specs.Pairs.{IsNodePair};
ghost use Rattle.traffic_matrix.specs.Limits.{IsSeries};
ghost use Rattle.traffic_matrix.specs.Outside.{AreAmong};

use command_files::{INPUT_LIMIT, MatrixReason, TopologyReason};
use command_frame::{BytesFault, FileKind};
use std::alloc::Global;
use std::fmt::{self, Display};
use te_model::{Memory, Network, Pair, same_network};
use topology::TopologyFault;
use traffic_matrix::{MatrixFault, Series, first_row_outside};

/// Why a topology is refused that has to be a certificate's network, which shows as its words.
#[derive(Clone, Copy)]
pub enum NetworkReason {
    /// The file is no topology.
    Topology(TopologyReason),
    /// Its network is another one.
    OtherNetwork,
}

impl fmt::Display for NetworkReason {
    ghost use Rattle.std.specs.Prelude.{Some};
    ghost use Rattle.simulation_command.specs.SimulationReasons.{network_reason};

    ghost output = { λ reason. Some (network_reason reason) };

    fn fmt<W: fmt::Write>(&self, f: &mut fmt::Formatter<W>) -> fmt::Result {
        match self {
            NetworkReason::Topology(reason) => reason.fmt(f),
            NetworkReason::OtherNetwork => f.write_str("not the network"),
        }
    }
}

/// Topologies of this network alone, names and links in order.
#[derive(Clone, Copy)]
pub struct TopologiesOf<'a> {
    pub network: &'a Network,
}

impl<'a> FileKind for TopologiesOf<'a> {
    ghost use Rattle.simulation_command.specs.NetworkFile.{topologies_of};
    ghost use Rattle.command_files.specs.Limits.{input_limits};

    type Value = Network;

    type Refusal = NetworkReason;

    ghost is_ready = { λ _. Unit {0} };

    ghost kind = { λ of. topologies_of of.network.now };

    ghost IsSound = { λ of network. of.network.now ≡ network };

    ghost limited = { λ _. input_limits };

    fn limit(&self, _start: &[u8]) -> u64 {
        INPUT_LIMIT
    }

    fn read(&self, alloc: Global, bytes: &[u8]) -> Result<Network, BytesFault<NetworkReason>> {
        match topology::read(alloc, bytes) {
            Ok(network) => {
                if same_network(self.network, &network) {
                    Ok(network)
                } else {
                    Err(BytesFault::Refused(NetworkReason::OtherNetwork))
                }
            }
            Err(TopologyFault::Memory) => Err(BytesFault::Memory),
            Err(fault) => Err(BytesFault::Refused(NetworkReason::Topology(TopologyReason(fault)))),
        }
    }
}

/// Why matrices are refused of which each pair has to be one of a routing, which shows as its words.
#[derive(Clone, Copy)]
pub enum RouteReason {
    /// The file is no matrix file.
    Matrices(MatrixReason),
    /// The first row whose pair the routing does not have, counted from 1 below the header.
    NoRoute(u64),
}

impl fmt::Display for RouteReason {
    ghost use Rattle.std.specs.Prelude.{Some};
    ghost use Rattle.simulation_command.specs.SimulationReasons.{route_reason};

    ghost output = { λ reason. Some (route_reason reason) };

    fn fmt<W: fmt::Write>(&self, f: &mut fmt::Formatter<W>) -> fmt::Result {
        match self {
            RouteReason::Matrices(reason) => reason.fmt(f),
            RouteReason::NoRoute(row) => write!(f, "no route at row {row}"),
        }
    }
}

/// Matrices of a network in which each row's pair is one of these.
#[derive(Clone, Copy)]
pub struct RoutedMatrices<'a> {
    pub network: &'a Network,
    pub pairs: &'a [Pair],
}

impl<'a> FileKind for RoutedMatrices<'a> {
    ghost use Rattle.simulation_command.specs.RoutedMatrices.{routed_matrices};
    ghost use Rattle.command_files.specs.Limits.{input_limits};

    type Value = Series;

    type Refusal = RouteReason;

    ghost is_ready = { λ of. IsTrue (is_well_formed of.network.now) × All (IsNodePair (node_count of.network.now)) of.pairs.now };

    ghost kind = { λ of. routed_matrices of.pairs.now of.network.now };

    ghost IsSound = { λ of series. IsSeries (node_count of.network.now) series × AreAmong series.pairs.list of.pairs.now };

    ghost limited = { λ _. input_limits };

    fn limit(&self, _start: &[u8]) -> u64 {
        INPUT_LIMIT
    }

    fn read(&self, alloc: Global, bytes: &[u8]) -> Result<Series, BytesFault<RouteReason>> {
        match traffic_matrix::read(alloc, self.network, bytes) {
            Ok(series) => match first_row_outside(alloc, self.network, self.pairs, bytes) {
                Ok(None) => Ok(series),
                Ok(Some(row)) => Err(BytesFault::Refused(RouteReason::NoRoute(row))),
                Err(Memory) => Err(BytesFault::Memory),
            },
            Err(MatrixFault::Memory) => Err(BytesFault::Memory),
            Err(fault) => Err(BytesFault::Refused(RouteReason::Matrices(MatrixReason::Fault(
                fault,
            )))),
        }
    }
}
