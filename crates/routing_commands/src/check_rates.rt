//! `check-rates CERT MATRICES RATES`: whether rates survive any so many failed links.
ghost use Rattle.std.specs.Prelude.{◌≡◌, IfErr, IfOk};
ghost use Rattle.te_model.specs.Network.{node_count};
ghost use Rattle.te_model.specs.Validity.{IsValidHead};
ghost use Rattle.traffic_matrix.specs.First.{first_matrix};
ghost use Rattle.traffic_matrix.specs.Limits.{IsSeries};
ghost use Rattle.fault_rates.specs.Answers.{IsRatesAnswer};
ghost use Rattle.fault_rates.specs.Plan.{IsValidPlan};
ghost use Rattle.te_ports.specs.Shown.{shown_by};
ghost use Rattle.command_frame.specs.declared.answer.Fault.TheVariants.{Memory as OutOfMemory};
ghost use Rattle.command_frame.specs.Outcome.{Follows, status_of, answer_text};
ghost use Rattle.routing_commands.specs.CheckRates.{rates_reading};
ghost use Rattle.command_files.specs.DemandReading.{with_matrices};

use command_files::{Matrices, Rates, answer_of, head_in};
use command_frame::{Answer, Ask, Fault, value_in};
use fault_rates::{RatePlan, check_rates_text};
use std::alloc::Global;
use te_model::Head;
use te_ports::Depot;
use traffic_matrix::{Series, first_matrix};

/// `check-rates CERT MATRICES RATES`.
#[derive(Clone, Copy)]
pub struct CheckRates<'a> {
    pub certificate: &'a str,
    /// The matrices of the network of the certificate.
    pub matrices: &'a str,
    /// The rates of its pairs.
    pub rates: &'a str,
}

impl<'a> Ask for CheckRates<'a> {
    ghost use Rattle.routing_commands.specs.CheckRates.{check_rates_entry};

    ghost reading = { λ c. (check_rates_entry c.certificate.now c.matrices.now c.rates.now).reading };

    fn answer<D: Depot>(&self, alloc: Global, depot: &mut D) -> Result<Answer, Fault> {
        let head = head_in(alloc, depot, self.certificate)?;
        check_head(alloc, depot, &head, self.matrices, self.rates)
    }
}

// The answer on rates for the routing of this head.
fn check_head<D: Depot>(
    alloc: Global,
    depot: &mut D,
    head: &Head,
    matrices: &str,
    rates: &str,
) -> Result<Answer, Fault>
    requires { IsValidHead head.now }
    ensures { Follows (with_matrices matrices.now head.now (rates_reading rates.now head.now))
        (shown_by D.content D.gave D.faults depot.old) (shown_by D.content D.gave D.faults depot.new) result }
{
    let of = Matrices {
        network: &head.network,
        step: None,
    };
    let series = value_in(alloc, depot, &of, matrices)?;
    check_series(alloc, depot, head, &series, rates)
}

// The answer on rates for the first matrix of the series.
fn check_series<D: Depot>(
    alloc: Global,
    depot: &mut D,
    head: &Head,
    series: &Series,
    rates: &str,
) -> Result<Answer, Fault>
    requires head { IsValidHead head.now }
    requires series { IsSeries (node_count head.now.network) series.now }
    ensures { Follows (rates_reading rates.now head.now series.now)
        (shown_by D.content D.gave D.faults depot.old) (shown_by D.content D.gave D.faults depot.new) result }
{
    let plan = value_in(alloc, depot, &Rates { head }, rates)?;
    check_under(alloc, head, series, &plan)
}

// The answer on these rates under the first matrix of the series.
fn check_under(
    alloc: Global,
    head: &Head,
    series: &Series,
    plan: &RatePlan,
) -> Result<Answer, Fault>
    requires head { IsValidHead head.now }
    requires series { IsSeries (node_count head.now.network) series.now }
    requires plan { IsValidPlan head.now.routes plan.now }
    ensures answer { IfOk result (λ answer.
        IsRatesAnswer head.now series.now.pairs.list (first_matrix series.now).demand plan.now (status_of answer) (answer_text answer)) }
    ensures memory { IfErr result (λ fault. fault ≡ OutOfMemory) }
{
    let matrix = first_matrix(alloc, series)?;
    let (status, text) = check_rates_text(alloc, head, &series.pairs, &matrix, plan)?;
    Ok(answer_of(status, text))
}
