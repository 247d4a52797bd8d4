//! The texts of the schemes of a report, each computed once.
ghost use Rattle.std.specs.Prelude.{◌≡◌, ◌<◌, All, IfOk, List, None, OnOk, length};
ghost use Rattle.std.specs.List.{HoldsAt};
ghost use Rattle.std.specs.Option.{IfSome};
ghost use Rattle.plan.specs.Words.{scheme_word};
ghost use Rattle.series_simulation.specs.declared.step_row.StepRow.{StepRow};
ghost use Rattle.experiment.specs.Schemes.{AreSchemeRows};
ghost use Rattle.experiment.specs.SchemeTexts.{IsReportInput, IsSchemeText};
ghost use Rattle.experiment.specs.Text.{scheme_lines};

use crate::driving::{lines_of, lines_with};
use crate::report_input::ReportInput;
use ecmp_split::Ecmp;
use k_paths::{Ksp, KspPlan};
use mcf_lengths::Mcf;
use plan::SchemeName;
use racke_mix::Racke;
use robust_routing::Robust;
use scheme::Spf;
use semi_oblivious::Semi;
use series_simulation::{Preparation, prepare_connected};
use std::alloc::Global;
use te_model::Memory;
use valiant_mix::Valiant;

/// The number of paths among which `mcf` moves weight: with as many, `ksp` is prepared as `mcf` is.
const FLOW_PATHS: u32 = 4;

/// The lines of a scheme of the plan, and their total.
#[derive(Drop)]
pub struct SchemeText {
    pub name: SchemeName,
    pub text: Vec<u8>,
}

/// The lines of the scheme of this name, with the plan's numbers and recovery. `Memory` comes where memory is wanting.
fn lines_by_name(alloc: Global, name: SchemeName, input: &ReportInput) -> Result<Vec<u8>, Memory>
    requires input { IsReportInput input.now }
    ensures { IfOk result (λ text. (rows : List StepRow)
        × AreSchemeRows name input.now.plan.now input.now.network.now input.now.traffic.now input.now.failures.now rows
        × (text.items ≡ scheme_lines (scheme_word name) rows)) }
{
    let plan = input.plan;
    let word = name.word();
    let base = Racke {
        trees: plan.trees,
        seed: plan.seed,
    };
    match name {
        SchemeName::Spf => lines_of(alloc, &Spf, word, input),
        SchemeName::Ecmp => lines_of(alloc, &Ecmp, word, input),
        SchemeName::Ksp => lines_of(alloc, &Ksp { k: plan.k }, word, input),
        SchemeName::Mcf => lines_of(alloc, &Mcf, word, input),
        SchemeName::Racke => lines_of(alloc, &base, word, input),
        SchemeName::Smore => {
            let budget = plan.budget;
            let scheme = Semi { base, budget };
            lines_of(alloc, &scheme, word, input)
        }
        SchemeName::Valiant => lines_of(alloc, &Valiant, word, input),
        SchemeName::Robust => {
            let scheme = Robust { ways: plan.budget };
            lines_of(alloc, &scheme, word, input)
        }
    }
}

/// The place of the first text of the scheme of this name, if there is one.
fn place_of(texts: &[SchemeText], name: SchemeName) -> Option<usize>
    ensures found { IfSome result (λ p. (p < length texts.now) × HoldsAt (λ t. t.name ≡ name) texts.now p) }
    ensures none { result ≡ None → All (λ t. ¬ (t.name ≡ name)) texts.now }
{
    for place in 0..texts.len() {
        if texts[place].name == name {
            return Some(place);
        }
    }
    None
}

/// The place of the first scheme of this name, if there is one.
fn name_place(schemes: &[SchemeName], name: SchemeName) -> Option<usize>
    ensures found { IfSome result (λ p. (p < length schemes.now) × HoldsAt (λ s. s ≡ name) schemes.now p) }
    ensures none { result ≡ None → All (λ s. ¬ (s ≡ name)) schemes.now }
{
    for place in 0..schemes.len() {
        if schemes[place] == name {
            return Some(place);
        }
    }
    None
}

/// Adds the texts of `mcf` and of `ksp`, which are prepared once: the paths among which `mcf` moves weight are those of `ksp`.
fn add_flow_texts(
    alloc: Global,
    texts: &mut Vec<SchemeText>,
    input: &ReportInput,
) -> Result<(), Memory>
    requires input { IsReportInput input.now }
    requires paths { input.now.plan.now.k ≡ 4 }
    requires texts { All (IsSchemeText input.now) texts.old.items }
    ensures texts { OnOk result (All (IsSchemeText input.now) texts.new.items) }
{
    let prepared = prepare_connected(alloc, &Mcf, input.network, &input.traffic.sent.pairs)?;
    let flow = lines_with(alloc, &Mcf, SchemeName::Mcf.word(), input, &prepared)?;
    texts.push(SchemeText {
        name: SchemeName::Mcf,
        text: flow,
    })?;
    let scheme = Ksp { k: input.plan.k };
    let reach = prepared.reach;
    let kept = prepared.plan;
    let plan = KspPlan {
        routing: kept.candidates,
    };
    let shared = Preparation { reach, plan };
    let least = lines_with(alloc, &scheme, SchemeName::Ksp.word(), input, &shared)?;
    texts.push(SchemeText {
        name: SchemeName::Ksp,
        text: least,
    })?;
    Ok(())
}

/// Adds the texts of `smore` and of `racke`, which are prepared once: the base of `smore` is `racke`.
fn add_tree_texts(
    alloc: Global,
    texts: &mut Vec<SchemeText>,
    input: &ReportInput,
) -> Result<(), Memory>
    requires input { IsReportInput input.now }
    requires texts { All (IsSchemeText input.now) texts.old.items }
    ensures texts { OnOk result (All (IsSchemeText input.now) texts.new.items) }
{
    let plan = input.plan;
    let base = Racke {
        trees: plan.trees,
        seed: plan.seed,
    };
    let scheme = Semi {
        base,
        budget: plan.budget,
    };
    let prepared = prepare_connected(alloc, &scheme, input.network, &input.traffic.sent.pairs)?;
    let adapted = lines_with(alloc, &scheme, SchemeName::Smore.word(), input, &prepared)?;
    texts.push(SchemeText {
        name: SchemeName::Smore,
        text: adapted,
    })?;
    let reach = prepared.reach;
    let kept = prepared.plan;
    let shared = Preparation {
        reach,
        plan: kept.base,
    };
    let mixed = lines_with(
        alloc,
        &scheme.base,
        SchemeName::Racke.word(),
        input,
        &shared,
    )?;
    texts.push(SchemeText {
        name: SchemeName::Racke,
        text: mixed,
    })?;
    Ok(())
}

/// The texts of those schemes of the plan that are prepared together.
pub fn shared_texts(alloc: Global, input: &ReportInput) -> Result<Vec<SchemeText>, Memory>
    requires input { IsReportInput input.now }
    ensures texts { IfOk result (λ texts. All (IsSchemeText input.now) texts.items) }
{
    let schemes = input.plan.schemes.as_slice();
    let has_flow = name_place(schemes, SchemeName::Mcf).is_some();
    let has_least = name_place(schemes, SchemeName::Ksp).is_some();
    let has_adapted = name_place(schemes, SchemeName::Smore).is_some();
    let has_mixed = name_place(schemes, SchemeName::Racke).is_some();
    let mut texts = Vec::new(alloc);
    if input.plan.k == FLOW_PATHS && has_flow && has_least {
        add_flow_texts(alloc, &mut texts, input)?;
    }
    if has_adapted && has_mixed {
        add_tree_texts(alloc, &mut texts, input)?;
    }
    Ok(texts)
}

/// The place of the text of the scheme of this name, which is added where it is not there yet. `Memory` comes where memory is wanting.
pub fn text_place(
    alloc: Global,
    texts: &mut Vec<SchemeText>,
    name: SchemeName,
    input: &ReportInput,
) -> Result<usize, Memory>
    requires input { IsReportInput input.now }
    requires texts { All (IsSchemeText input.now) texts.old.items }
    ensures texts { OnOk result (All (IsSchemeText input.now) texts.new.items) }
    ensures place { IfOk result (λ p. (p < length texts.new.items) × HoldsAt (λ t. t.name ≡ name) texts.new.items p) }
{
    match place_of(texts.as_slice(), name) {
        Some(place) => Ok(place),
        None => {
            let text = lines_by_name(alloc, name, input)?;
            texts.push(SchemeText { name, text })?;
            Ok(texts.len() - 1)
        }
    }
}
