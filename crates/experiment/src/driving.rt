//! The lines of a scheme that is driven through the series.
ghost use Rattle.std.specs.Prelude.{◌≡◌, ◌≤◌, IfOk, filter};
ghost use Rattle.std.specs.Option.{IfSome};
ghost use Rattle.series_simulation.specs.Connected.{TellsPaths, connects};
ghost use Rattle.experiment.specs.SchemeTexts.{AreLinesOf, IsReportInput};

use crate::figures::Figures;
use crate::lines::{add_row, print_total};
use crate::report_input::ReportInput;
use scheme::Adaptive;
use series_simulation::{Preparation, prepare_connected, row_after};
use std::alloc::Global;
use te_model::Memory;

/// The lines of a scheme that was prepared for the network, one for each step of the series, and the total. No row is kept but the last.
/// `Memory` comes where memory is wanting.
pub fn lines_with<S: Adaptive>(
    alloc: Global,
    scheme: &S,
    word: &str,
    input: &ReportInput,
    prepared: &Preparation<S::Plan>,
) -> Result<Vec<u8>, Memory>
    requires input { IsReportInput input.now }
    requires paths { S.Scheme.PATHS ≤ 4096 }
    requires tells { TellsPaths input.now.network.now (connects prepared.now.reach) }
    requires planned { S.Scheme.is_plan scheme.now input.now.network.now (filter (connects prepared.now.reach) input.now.traffic.now.sent.pairs.list) prepared.now.plan }
    ensures { IfOk result (λ text. AreLinesOf S.Scheme.PATHS (S.Scheme.is_plan scheme.now) (S.Scheme.relates scheme.now) S.Note.low (S.path_set_routes scheme.now) (S.adapts scheme.now)
        input.now word.now text.items) }
{
    let network = input.network;
    let traffic = input.traffic;
    let recovery = input.plan.recovery;
    let steps = traffic.sent.steps.as_slice().len();
    let marks = input.failures.series(alloc, network, steps)?;
    let mut text = Vec::new(alloc);
    let mut total = Figures::none();
    let mut last = None;
    let mut kept = Vec::new(alloc);
    for step in 0..steps {
        let row = row_after(
            alloc,
            scheme,
            network,
            prepared,
            traffic,
            marks.as_slice(),
            recovery,
            step as u32,
            last.take(),
            &mut kept,
        )?;
        add_row(&mut text, &mut total, word, &row)?;
        last = Some(row);
    }
    print_total(&mut text, word, &total)?;
    Ok(text)
}

/// The lines of a scheme, which is prepared for the network. `Memory` comes where memory is wanting.
pub fn lines_of<S: Adaptive>(
    alloc: Global,
    scheme: &S,
    word: &str,
    input: &ReportInput,
) -> Result<Vec<u8>, Memory>
    requires input { IsReportInput input.now }
    requires paths { S.Scheme.PATHS ≤ 4096 }
    ensures { IfOk result (λ text. AreLinesOf S.Scheme.PATHS (S.Scheme.is_plan scheme.now) (S.Scheme.relates scheme.now) S.Note.low (S.path_set_routes scheme.now) (S.adapts scheme.now)
        input.now word.now text.items) }
{
    let prepared = prepare_connected(alloc, scheme, input.network, &input.traffic.sent.pairs)?;
    lines_with(alloc, scheme, word, input, &prepared)
}
