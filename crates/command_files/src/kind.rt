//! The kinds of files that the commands read.
ghost use Rattle.std.specs.Prelude.{◌≡◌, ◌≤◌, IfOk, IsTrue};
ghost use Rattle.te_model.specs.Network.{is_well_formed, link_count, node_count};
ghost use Rattle.te_model.specs.Validity.{IsValid, IsValidHead};
ghost use Rattle.traffic_matrix.specs.Limits.{IsSeries};
ghost use Rattle.plan.specs.Plan.{InRange};
ghost use Rattle.link_bounds.specs.Laws.{CanReprice};
ghost use Rattle.command_files.specs.CapacityFile.{priced_network};

use crate::reasons::{
    CapacityReason, FailureReason, FormatReason, MatrixReason, PlanReason, TopologyReason,
};
use cert_text::CertFault;
use command_frame::{BytesFault, FileKind};
use failure::{FailureFault, Failures};
use fault_rates::{RateFault, RatePlan, read_by_routes};
use hose_bound::{Hose, HoseCert, HoseFault};
use link_bounds::{has_ratio_on, have_same_links};
use plan::{Experiment, PlanFault, read_plan};
use ratio_witness::{Witness, WitnessFault};
use std::alloc::Global;
use te_model::{Certificate, Head, Network, file_limit};
use topology::TopologyFault;
use traffic_matrix::{MatrixFault, Series};

/// The greatest file of a topology, of matrices, of failures, of rates, of a hose, of a hose certificate or of a plan, in bytes.
pub const INPUT_LIMIT: u64 = 67_108_864;

/// The greatest file of a witness, in bytes.
const WITNESS_LIMIT: u64 = 1_073_741_824;

/// Certificates. What one gives is valid.
#[derive(Clone, Copy)]
pub struct Certificates;

impl FileKind for Certificates {
    ghost use Rattle.command_files.specs.CertificateFile.{certificates};
    ghost use Rattle.command_files.specs.Limits.{certificate_limits};

    type Value = Certificate;

    type Refusal = FormatReason;

    ghost is_ready = { λ _. Unit {0} };

    ghost kind = { λ _. certificates };

    ghost IsSound = { λ _. IsValid };

    ghost limited = { λ _. certificate_limits };

    fn limit(&self, start: &[u8]) -> u64 {
        file_limit(start)
    }

    fn read(&self, alloc: Global, bytes: &[u8]) -> Result<Certificate, BytesFault<FormatReason>> {
        match cert_text::read(alloc, bytes) {
            Ok(certificate) => Ok(certificate),
            Err(CertFault::Shape(line)) => Err(BytesFault::Refused(FormatReason::Shape(line))),
            Err(CertFault::Rule(rule)) => Err(BytesFault::Refused(FormatReason::Rule("V", rule))),
            Err(CertFault::Memory) => Err(BytesFault::Memory),
        }
    }
}

/// The witnesses of a certificate's head. What one gives keeps its rules.
#[derive(Clone, Copy)]
pub struct Witnesses<'a> {
    pub head: &'a Head,
}

impl<'a> FileKind for Witnesses<'a> {
    ghost use Rattle.ratio_witness.specs.Rules.{KeepsRules};
    ghost use Rattle.command_files.specs.WitnessFile.{witnesses};
    ghost use Rattle.command_files.specs.Limits.{witness_limits};

    type Value = Witness;

    type Refusal = FormatReason;

    ghost is_ready = { λ of. IsValidHead of.head.now };

    ghost kind = { λ of. witnesses of.head.now };

    ghost IsSound = { λ of. KeepsRules of.head.now };

    ghost limited = { λ _. witness_limits };

    fn limit(&self, _start: &[u8]) -> u64 {
        WITNESS_LIMIT
    }

    fn read(&self, alloc: Global, bytes: &[u8]) -> Result<Witness, BytesFault<FormatReason>> {
        match ratio_witness::read(alloc, self.head, bytes) {
            Ok(witness) => Ok(witness),
            Err(WitnessFault::Shape(line)) => Err(BytesFault::Refused(FormatReason::Shape(line))),
            Err(WitnessFault::Rule(rule)) => Err(BytesFault::Refused(FormatReason::Rule(
                "U", rule,
            ))),
            Err(WitnessFault::Memory) => Err(BytesFault::Memory),
        }
    }
}

/// The rates of a certificate's routing. What a file gives keeps its rules.
#[derive(Clone, Copy)]
pub struct Rates<'a> {
    pub head: &'a Head,
}

impl<'a> FileKind for Rates<'a> {
    ghost use Rattle.fault_rates.specs.Plan.{IsValidPlan};
    ghost use Rattle.command_files.specs.Limits.{input_limits};
    ghost use Rattle.command_files.specs.RateFile.{rate_files};

    type Value = RatePlan;

    type Refusal = FormatReason;

    ghost is_ready = { λ _. Unit {0} };

    ghost kind = { λ of. rate_files of.head.now.routes };

    ghost IsSound = { λ of. IsValidPlan of.head.now.routes };

    ghost limited = { λ _. input_limits };

    fn limit(&self, _start: &[u8]) -> u64 {
        INPUT_LIMIT
    }

    fn read(&self, alloc: Global, bytes: &[u8]) -> Result<RatePlan, BytesFault<FormatReason>> {
        match read_by_routes(alloc, self.head.routes.as_slice(), bytes) {
            Ok(plan) => Ok(plan),
            Err(RateFault::Shape(line)) => Err(BytesFault::Refused(FormatReason::Shape(line))),
            Err(RateFault::Rule(rule)) => Err(BytesFault::Refused(FormatReason::Rule("G", rule))),
            Err(RateFault::Memory) => Err(BytesFault::Memory),
        }
    }
}

/// The hoses of a network. What a file gives keeps K1.
#[derive(Clone, Copy)]
pub struct Hoses<'a> {
    pub network: &'a Network,
}

impl<'a> FileKind for Hoses<'a> {
    ghost use Rattle.hose_bound.specs.Rules.{IsValidHose};
    ghost use Rattle.command_files.specs.HoseFile.{bounds_files};
    ghost use Rattle.command_files.specs.Limits.{input_limits};

    type Value = Hose;

    type Refusal = FormatReason;

    ghost is_ready = { λ of. IsTrue (is_well_formed of.network.now) };

    ghost kind = { λ of. bounds_files of.network.now };

    ghost IsSound = { λ of. IsValidHose (node_count of.network.now) };

    ghost limited = { λ _. input_limits };

    fn limit(&self, _start: &[u8]) -> u64 {
        INPUT_LIMIT
    }

    fn read(&self, alloc: Global, bytes: &[u8]) -> Result<Hose, BytesFault<FormatReason>> {
        match hose_bound::read_bounds(alloc, self.network, bytes) {
            Ok(hose) => Ok(hose),
            Err(HoseFault::Shape(line)) => Err(BytesFault::Refused(FormatReason::Shape(line))),
            Err(HoseFault::Rule(rule)) => Err(BytesFault::Refused(FormatReason::Rule("K", rule))),
            Err(HoseFault::Memory) => Err(BytesFault::Memory),
        }
    }
}

/// The hose certificates of a network. What a file gives keeps their rules.
#[derive(Clone, Copy)]
pub struct HoseCerts<'a> {
    pub network: &'a Network,
}

impl<'a> FileKind for HoseCerts<'a> {
    ghost use Rattle.hose_bound.specs.Rules.{IsValidHoseCert};
    ghost use Rattle.command_files.specs.HoseFile.{hose_files};
    ghost use Rattle.command_files.specs.Limits.{input_limits};

    type Value = HoseCert;

    type Refusal = FormatReason;

    ghost is_ready = { λ of. IsTrue (is_well_formed of.network.now) };

    ghost kind = { λ of. hose_files of.network.now };

    ghost IsSound = { λ of. IsValidHoseCert of.network.now };

    ghost limited = { λ _. input_limits };

    fn limit(&self, _start: &[u8]) -> u64 {
        INPUT_LIMIT
    }

    fn read(&self, alloc: Global, bytes: &[u8]) -> Result<HoseCert, BytesFault<FormatReason>> {
        match hose_bound::read(alloc, self.network, bytes) {
            Ok(cert) => Ok(cert),
            Err(HoseFault::Shape(line)) => Err(BytesFault::Refused(FormatReason::Shape(line))),
            Err(HoseFault::Rule(rule)) => Err(BytesFault::Refused(FormatReason::Rule("K", rule))),
            Err(HoseFault::Memory) => Err(BytesFault::Memory),
        }
    }
}

/// Topologies. The network of one is well formed and has a link.
#[derive(Clone, Copy)]
pub struct Topologies;

impl FileKind for Topologies {
    ghost use Rattle.command_files.specs.TopologyFile.{topologies};
    ghost use Rattle.command_files.specs.Limits.{input_limits};

    type Value = Network;

    type Refusal = TopologyReason;

    ghost is_ready = { λ _. Unit {0} };

    ghost kind = { λ _. topologies };

    ghost IsSound = { λ _ network. IsTrue (is_well_formed network) × (1 ≤ link_count network) };

    ghost limited = { λ _. input_limits };

    fn limit(&self, _start: &[u8]) -> u64 {
        INPUT_LIMIT
    }

    fn read(&self, alloc: Global, bytes: &[u8]) -> Result<Network, BytesFault<TopologyReason>> {
        match topology::read(alloc, bytes) {
            Ok(network) => Ok(network),
            Err(TopologyFault::Memory) => Err(BytesFault::Memory),
            Err(fault) => Err(BytesFault::Refused(TopologyReason(fault))),
        }
    }
}

/// Topologies with the links of a certificate, of any capacities and costs. On the network of one the blocks need a ratio that a file
/// can spell.
#[derive(Clone, Copy)]
pub struct Capacities<'a> {
    pub certificate: &'a Certificate,
}

impl<'a> FileKind for Capacities<'a> {
    ghost use Rattle.command_files.specs.CapacityFile.{capacities};
    ghost use Rattle.command_files.specs.Limits.{input_limits};

    type Value = Network;

    type Refusal = CapacityReason;

    ghost is_ready = { λ of. IsValid of.certificate.now };

    ghost kind = { λ of. capacities of.certificate.now };

    ghost IsSound = { λ of. CanReprice of.certificate.now };

    ghost limited = { λ _. input_limits };

    fn limit(&self, _start: &[u8]) -> u64 {
        INPUT_LIMIT
    }

    fn read(&self, alloc: Global, bytes: &[u8]) -> Result<Network, BytesFault<CapacityReason>> {
        match topology::read(alloc, bytes) {
            Ok(network) => match priced(self.certificate, network) {
                Ok(network) => Ok(network),
                Err(reason) => Err(BytesFault::Refused(reason)),
            },
            Err(TopologyFault::Memory) => Err(BytesFault::Memory),
            Err(fault) => Err(BytesFault::Refused(CapacityReason::Topology(fault))),
        }
    }
}

// The network, where the certificate can take its capacities, or why it cannot.
fn priced(certificate: &Certificate, network: Network) -> Result<Network, CapacityReason>
    requires valid { IsValid certificate.now }
    requires formed { IsTrue (is_well_formed network) }
    ensures reads { result ≡ priced_network certificate.now network }
    ensures sound { IfOk result (CanReprice certificate.now) }
{
    if !have_same_links(&certificate.head.network, &network) {
        Err(CapacityReason::OtherLinks)
    } else if has_ratio_on(certificate, &network) {
        Ok(network)
    } else {
        Err(CapacityReason::GreatRatio)
    }
}

/// The matrices of a network.
#[derive(Clone, Copy)]
pub struct Matrices<'a> {
    pub network: &'a Network,
    /// A step that the series has to have, if there is one.
    pub step: Option<u32>,
}

impl<'a> Matrices<'a> {
    ghost use Rattle.std.specs.Prelude.{◌≡◌};
    ghost use Rattle.command_files.specs.Outcome.{missing_step};

    // The step that the series has to have and has not.
    fn missing_step(&self, series: &Series) -> Option<u32>
        ensures { result ≡ missing_step self.now.step series.now }
    {
        let step = self.step?;
        if (step as usize) < series.steps.as_slice().len() {
            None
        } else {
            Some(step)
        }
    }
}

impl<'a> FileKind for Matrices<'a> {
    ghost use Rattle.command_files.specs.MatrixFile.{matrices_for};
    ghost use Rattle.command_files.specs.Outcome.{HasStep};
    ghost use Rattle.command_files.specs.Limits.{matrices_limits};

    type Value = Series;

    type Refusal = MatrixReason;

    ghost is_ready = { λ of. IsTrue (is_well_formed of.network.now) };

    ghost kind = { λ of. matrices_for of.step of.network.now };

    ghost IsSound = { λ of series. IsSeries (node_count of.network.now) series × HasStep of.step series };

    ghost limited = { λ of. matrices_limits of.step of.network.now };

    fn limit(&self, _start: &[u8]) -> u64 {
        INPUT_LIMIT
    }

    fn read(&self, alloc: Global, bytes: &[u8]) -> Result<Series, BytesFault<MatrixReason>> {
        match traffic_matrix::read(alloc, self.network, bytes) {
            Ok(series) => match self.missing_step(&series) {
                None => Ok(series),
                Some(step) => Err(BytesFault::Refused(MatrixReason::NoStep(step))),
            },
            Err(MatrixFault::Memory) => Err(BytesFault::Memory),
            Err(fault) => Err(BytesFault::Refused(MatrixReason::Fault(fault))),
        }
    }
}

/// The failures of a network's links in the steps of a series.
#[derive(Clone, Copy)]
pub struct FailureFiles<'a> {
    pub network: &'a Network,
    pub series: &'a Series,
}

impl<'a> FileKind for FailureFiles<'a> {
    ghost use Rattle.command_files.specs.FailureFile.{failure_files};
    ghost use Rattle.command_files.specs.Limits.{input_limits};

    type Value = Failures;

    type Refusal = FailureReason;

    ghost is_ready = { λ of. IsTrue (is_well_formed of.network.now) × IsSeries (node_count of.network.now) of.series.now };

    ghost kind = { λ of. failure_files of.network.now of.series.now };

    ghost IsSound = { λ _ _. Unit {0} };

    ghost limited = { λ _. input_limits };

    fn limit(&self, _start: &[u8]) -> u64 {
        INPUT_LIMIT
    }

    fn read(&self, alloc: Global, bytes: &[u8]) -> Result<Failures, BytesFault<FailureReason>> {
        let steps = self.series.steps.as_slice().len() as u32;
        match failure::read(alloc, self.network, steps, bytes) {
            Ok(failures) => Ok(failures),
            Err(FailureFault::Memory) => Err(BytesFault::Memory),
            Err(fault) => Err(BytesFault::Refused(FailureReason(fault))),
        }
    }
}

/// Plans. The numbers of one are in their ranges.
#[derive(Clone, Copy)]
pub struct Plans;

impl FileKind for Plans {
    ghost use Rattle.command_files.specs.PlanFile.{plans};
    ghost use Rattle.command_files.specs.Limits.{input_limits};

    type Value = Experiment;

    type Refusal = PlanReason;

    ghost is_ready = { λ _. Unit {0} };

    ghost kind = { λ _. plans };

    ghost IsSound = { λ _. InRange };

    ghost limited = { λ _. input_limits };

    fn limit(&self, _start: &[u8]) -> u64 {
        INPUT_LIMIT
    }

    fn read(&self, alloc: Global, bytes: &[u8]) -> Result<Experiment, BytesFault<PlanReason>> {
        match read_plan(alloc, bytes) {
            Ok(plan) => Ok(plan),
            Err(PlanFault::Memory) => Err(BytesFault::Memory),
            Err(fault) => Err(BytesFault::Refused(PlanReason(fault))),
        }
    }
}
