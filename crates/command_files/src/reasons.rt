//! Why files are refused: each fault shows as its words. No bytes are refused for the want of memory.
ghost use Rattle.std.specs.Prelude.{◌≡◌, ◌++◌};
ghost use Rattle.command_files.specs.TopologyFile.{topology_reason};
ghost use Rattle.command_files.specs.MatrixFile.{matrices_reason};
ghost use Rattle.command_files.specs.FailureFile.{failures_reason};
ghost use Rattle.command_files.specs.PlanFile.{plan_reason};
ghost use Rattle.command_files.specs.Refusals.{at_row};

use failure::FailureFault;
use plan::PlanFault;
use std::fmt::{self, Display};
use te_model::RuleFault;
use topology::TopologyFault;
use traffic_matrix::MatrixFault;

/// A fault of a file whose format has rules, which shows as its words.
#[derive(Clone, Copy)]
pub enum FormatReason {
    /// The first line, counted from 1, at which the bytes leave the format.
    Shape(u64),
    /// The first rule that fails of what the bytes spell, and the letter of the format's rules.
    Rule(&'static str, RuleFault),
}

impl fmt::Display for FormatReason {
    ghost use Rattle.std.specs.Prelude.{Some};
    ghost use Rattle.command_files.specs.Refusals.{format_reason};

    ghost output = { λ reason. Some (format_reason reason) };

    fn fmt<W: fmt::Write>(&self, f: &mut fmt::Formatter<W>) -> fmt::Result {
        match self {
            FormatReason::Shape(line) => write!(f, "shape at line {line}"),
            FormatReason::Rule(letter, RuleFault { number, place }) => {
                write!(f, "rule {letter}{number} at {place}")
            }
        }
    }
}

// Words, and the row that they end in where there is one.
#[derive(Clone, Copy)]
struct AtRow<'a>(&'a str, Option<u64>);

impl<'a> fmt::Display for AtRow<'a> {
    ghost use Rattle.std.specs.Prelude.{Some};

    ghost output = { λ words. Some (at_row words.0.now words.1) };

    fn fmt<W: fmt::Write>(&self, f: &mut fmt::Formatter<W>) -> fmt::Result {
        match self.1 {
            None => f.write_str(self.0),
            Some(row) => write!(f, "{}{row}", self.0),
        }
    }
}

/// A fault of a topology, which shows as its words.
#[derive(Clone, Copy)]
pub struct TopologyReason(pub TopologyFault);

impl fmt::Display for TopologyReason {
    ghost use Rattle.std.specs.Prelude.{Some};

    ghost output = { λ reason. Some (topology_reason reason.0) };

    fn fmt<W: fmt::Write>(&self, f: &mut fmt::Formatter<W>) -> fmt::Result {
        topology_words(self.0).fmt(f)
    }
}

// The words for a fault of a topology.
fn topology_words(fault: TopologyFault) -> AtRow<'static>
    ensures { at_row result.0.now result.1 ≡ topology_reason fault }
{
    match fault {
        TopologyFault::Header => AtRow("header", None),
        TopologyFault::Fields(row) => AtRow("fields at row ", Some(row)),
        TopologyFault::Name(row) => AtRow("name at row ", Some(row)),
        TopologyFault::Number(row) => AtRow("number at row ", Some(row)),
        TopologyFault::SelfLink(row) => AtRow("self link at row ", Some(row)),
        TopologyFault::TooMany(row) => AtRow("too many at row ", Some(row)),
        TopologyFault::Empty => AtRow("empty", None),
        TopologyFault::Memory => AtRow("memory", None),
    }
}

/// Why a certificate cannot take the capacities of a topology, which shows as its words.
#[derive(Clone, Copy)]
pub enum CapacityReason {
    /// The file is no topology.
    Topology(TopologyFault),
    /// The nodes by name, or the links by their ends, are not those of the certificate, in order.
    OtherLinks,
    /// The blocks need a ratio of 10^19 or more.
    GreatRatio,
}

impl fmt::Display for CapacityReason {
    ghost use Rattle.std.specs.Prelude.{Some};
    ghost use Rattle.command_files.specs.CapacityFile.{capacity_reason};

    ghost output = { λ reason. Some (capacity_reason reason) };

    fn fmt<W: fmt::Write>(&self, f: &mut fmt::Formatter<W>) -> fmt::Result {
        match self {
            CapacityReason::Topology(fault) => topology_words(*fault).fmt(f),
            CapacityReason::OtherLinks => f.write_str("not the links"),
            CapacityReason::GreatRatio => f.write_str("ratio too great"),
        }
    }
}

/// Why a matrix file is refused, which shows as its words.
#[derive(Clone, Copy)]
pub enum MatrixReason {
    /// A fault of its rows.
    Fault(MatrixFault),
    /// Its series has no step of this number.
    NoStep(u32),
}

impl fmt::Display for MatrixReason {
    ghost use Rattle.std.specs.Prelude.{Some};
    ghost use Rattle.command_files.specs.Refusals.{series_reason};

    ghost output = { λ reason. Some (series_reason reason) };

    fn fmt<W: fmt::Write>(&self, f: &mut fmt::Formatter<W>) -> fmt::Result {
        match *self {
            MatrixReason::Fault(fault) => matrices_words(fault).fmt(f),
            MatrixReason::NoStep(step) => write!(f, "no step {step}"),
        }
    }
}

// The words for a fault of a matrix file.
fn matrices_words(fault: MatrixFault) -> AtRow<'static>
    ensures { at_row result.0.now result.1 ≡ matrices_reason fault }
{
    match fault {
        MatrixFault::Header => AtRow("header", None),
        MatrixFault::Fields(row) => AtRow("fields at row ", Some(row)),
        MatrixFault::UnknownNode(row) => AtRow("unknown node at row ", Some(row)),
        MatrixFault::Number(row) => AtRow("number at row ", Some(row)),
        MatrixFault::Order(row) => AtRow("order at row ", Some(row)),
        MatrixFault::Repeated(row) => AtRow("repeated at row ", Some(row)),
        MatrixFault::SelfPair(row) => AtRow("self pair at row ", Some(row)),
        MatrixFault::TooManySteps(row) => AtRow("too many steps at row ", Some(row)),
        MatrixFault::Memory => AtRow("memory", None),
    }
}

/// A fault of a failure file, which shows as its words.
#[derive(Clone, Copy)]
pub struct FailureReason(pub FailureFault);

impl fmt::Display for FailureReason {
    ghost use Rattle.std.specs.Prelude.{Some};

    ghost output = { λ reason. Some (failures_reason reason.0) };

    fn fmt<W: fmt::Write>(&self, f: &mut fmt::Formatter<W>) -> fmt::Result {
        failures_words(self.0).fmt(f)
    }
}

// The words for a fault of a failure file.
fn failures_words(fault: FailureFault) -> AtRow<'static>
    ensures { at_row result.0.now result.1 ≡ failures_reason fault }
{
    match fault {
        FailureFault::Header => AtRow("header", None),
        FailureFault::Fields(row) => AtRow("fields at row ", Some(row)),
        FailureFault::Number(row) => AtRow("number at row ", Some(row)),
        FailureFault::NoSuchLink(row) => AtRow("no such link at row ", Some(row)),
        FailureFault::Interval(row) => AtRow("interval at row ", Some(row)),
        FailureFault::Memory => AtRow("memory", None),
    }
}

/// A fault of a plan, which shows as its words.
#[derive(Clone, Copy)]
pub struct PlanReason(pub PlanFault);

impl fmt::Display for PlanReason {
    ghost use Rattle.std.specs.Prelude.{Some};

    ghost output = { λ reason. Some (plan_reason reason.0) };

    fn fmt<W: fmt::Write>(&self, f: &mut fmt::Formatter<W>) -> fmt::Result {
        let (words, key) = plan_words(self.0);
        write!(f, "{words}{key}")
    }
}

// The words for a fault of a plan, and those of the key that they end in where there is one.
fn plan_words(fault: PlanFault) -> (&'static str, &'static str)
    ensures { result.0.now ++ result.1.now ≡ plan_reason fault }
{
    match fault {
        PlanFault::NotJson => ("not json", ""),
        PlanFault::UnknownKey => ("unknown key", ""),
        PlanFault::Missing(key) => ("missing ", key.word()),
        PlanFault::Kind(key) => ("kind of ", key.word()),
        PlanFault::Range(key) => ("range of ", key.word()),
        PlanFault::SchemeName(key) => ("scheme name of ", key.word()),
        PlanFault::Memory => ("memory", ""),
    }
}
