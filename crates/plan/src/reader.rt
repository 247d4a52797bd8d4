//! Reading a plan.

ghost use Rattle.std.specs.Prelude.{◌≡◌, ◌≢◌, ◌≤◌, ◌-◌, ◌^◌, IfOk, IfErr, IfSome, Ok, Err, Some, None, [], length, true, option_map};
ghost use Rattle.serde_json.specs.View.{view, members_view};
ghost use Rattle.serde_json.specs.Find.{get};
ghost use Rattle.plan.specs.declared.fault.PlanFault.TheVariants as fault;
ghost use Rattle.plan.specs.Words.{key_word, is_key, is_name_key, is_count_or_set_key, is_oblivious};
ghost use Rattle.plan.specs.Plan.{plan_of, plan_of_object, json_of, knows_all, required_value, count_of_key, files_of, optional_name, choices_of, numbers_of, envelope_at, InRange};

use crate::experiment::Experiment;
use crate::fault::PlanFault;
use crate::key::Key;
use crate::recovery::Recovery;
use crate::scheme_name::SchemeName;
use crate::values::{
    read_envelope, read_margin, read_number, read_publish, read_recovery, read_schemes, read_text,
};
use serde_json::{Category, Map, Value};
use std::alloc::Global;
use te_model::{Items, Name};

/// Reads a plan: one JSON object. A key that stands twice has its last value.
///
/// An error is the first by the order of [`PlanFault`] down to `Missing`, and after that by the order of the keys in
/// [`Key`], a key's kind before its range and its scheme name.
pub fn read_plan(alloc: Global, bytes: &[u8]) -> Result<Experiment, PlanFault>
    ensures plan { IfOk result (λ plan. plan_of bytes.now ≡ Ok plan) }
    ensures in_range { IfOk result InRange }
    ensures refused { IfErr result (λ e. e ≢ fault.Memory → plan_of bytes.now ≡ Err e) }
{
    let value = parse(alloc, bytes)?;
    let Some(members) = value.as_object() else {
        return Err(PlanFault::Kind(Key::Plan));
    };
    if !knows_all(members) {
        return Err(PlanFault::UnknownKey);
    }
    read_object(alloc, &value)
}

// The value that the bytes hold.
fn parse(alloc: Global, bytes: &[u8]) -> Result<Value, PlanFault>
    ensures value { IfOk result (λ v. json_of bytes.now ≡ Some (view v)) }
    ensures refused { IfErr result (λ e. e ≢ fault.Memory → (e ≡ fault.NotJson) × (json_of bytes.now ≡ None)) }
{
    let Ok(text) = str::from_utf8(bytes) else {
        return Err(PlanFault::NotJson);
    };
    match Value::from_str(alloc, text) {
        Ok(value) => Ok(value),
        Err(e) if e.classify() == Category::Memory => Err(PlanFault::Memory),
        Err(_) => Err(PlanFault::NotJson),
    }
}

fn is_key(text: &str) -> bool
    ensures { result ≡ is_key text.now }
{
    is_name_key(text) || is_count_or_set_key(text)
}

// Names stand at these keys: of files, of schemes and of a recovery.
fn is_name_key(text: &str) -> bool
    ensures { result ≡ is_name_key text.now }
{
    text == "topology"
        || text == "matrices"
        || text == "failures"
        || text == "predictions"
        || text == "schemes"
        || text == "recovery"
        || text == "publish"
}

// At these keys stand counts, and the set of matrices that is certified.
fn is_count_or_set_key(text: &str) -> bool
    ensures { result ≡ is_count_or_set_key text.now }
{
    text == "margin"
        || text == "k"
        || text == "budget"
        || text == "trees"
        || text == "seed"
        || text == "seeds"
        || text == "envelope"
}

// Whether each key is one of a plan.
fn knows_all(members: &Map<String, Value>) -> bool
    ensures { result ≡ knows_all (members_view members.now.entries) }
{
    for (key, _value) in members.iter() {
        if !is_key(key.as_str()) {
            return false;
        }
    }
    true
}

// What an object with known keys says.
#[tactic(auto, unfolding(crate::specs::Plan::plan_of_object))]
fn read_object(alloc: Global, value: &Value) -> Result<Experiment, PlanFault>
    ensures plan { IfOk result (λ plan. plan_of_object (view value.now) ≡ Ok plan) }
    ensures in_range { IfOk result InRange }
    ensures refused { IfErr result (λ e. e ≢ fault.Memory → plan_of_object (view value.now) ≡ Err e) }
{
    let topology = required_value(value, Key::Topology)?;
    let matrices = required_value(value, Key::Matrices)?;
    let files = read_files(alloc, topology, matrices, value)?;
    let choices = read_choices(alloc, value)?;
    let counts = read_counts(value)?;
    let envelope = asks_for_envelope(value, choices.margin)?;
    Ok(Experiment {
        topology: files.topology,
        matrices: files.matrices,
        failures: files.failures,
        predictions: files.predictions,
        schemes: choices.schemes,
        recovery: choices.recovery,
        publish: choices.publish,
        margin: choices.margin,
        k: counts.k,
        budget: counts.budget,
        trees: counts.trees,
        seed: counts.seed,
        seeds: counts.seeds,
        envelope,
    })
}

// The value of a key that must be there.
fn required_value(value: &Value, key: Key) -> Result<&Value, PlanFault>
    ensures value { IfOk result (λ v. required_value key (view value.now) ≡ Ok (view v.now)) }
    ensures refused { IfErr result (λ e. required_value key (view value.now) ≡ Err e) }
{
    match value.get(key.word()) {
        Some(found) => Ok(found),
        None => Err(PlanFault::Missing(key)),
    }
}

// The names of the files.
#[derive(Drop)]
struct Files {
    topology: Name,
    matrices: Name,
    failures: Option<Name>,
    predictions: Option<Name>,
}

// The text of a key that may be left out.
fn read_optional_text(alloc: Global, key: Key, value: &Value) -> Result<Option<Name>, PlanFault>
    ensures name { IfOk result (λ n. optional_name key (view value.now) ≡ Ok n) }
    ensures some { IfOk result (λ n. IfSome n (λ name. name ≢ [])) }
    ensures refused { IfErr result (λ e. e ≢ fault.Memory → optional_name key (view value.now) ≡ Err e) }
{
    match value.get(key.word()) {
        Some(name) => Ok(Some(read_text(alloc, key, name)?)),
        None => Ok(None),
    }
}

#[tactic(auto, unfolding(crate::specs::Plan::files_of))]
fn read_files(
    alloc: Global,
    topology: &Value,
    matrices: &Value,
    value: &Value,
) -> Result<Files, PlanFault>
    ensures files { IfOk result (λ f. files_of (view topology.now) (view matrices.now) (view value.now) ≡ Ok f) }
    ensures topology { IfOk result (λ f. f.topology ≢ []) }
    ensures matrices { IfOk result (λ f. f.matrices ≢ []) }
    ensures failures { IfOk result (λ f. IfSome f.failures (λ name. name ≢ [])) }
    ensures predictions { IfOk result (λ f. IfSome f.predictions (λ name. name ≢ [])) }
    ensures refused { IfErr result (λ e. e ≢ fault.Memory → files_of (view topology.now) (view matrices.now) (view value.now) ≡ Err e) }
{
    let topology = read_text(alloc, Key::Topology, topology)?;
    let matrices = read_text(alloc, Key::Matrices, matrices)?;
    let failures = read_optional_text(alloc, Key::Failures, value)?;
    let predictions = read_optional_text(alloc, Key::Predictions, value)?;
    Ok(Files {
        topology,
        matrices,
        failures,
        predictions,
    })
}

// What is compared, and what is published.
#[derive(Drop)]
struct Choices {
    schemes: Items<SchemeName>,
    recovery: Recovery,
    publish: SchemeName,
    margin: Option<(u64, u64)>,
}

#[tactic(auto, unfolding(crate::specs::Plan::choices_of))]
fn read_choices(alloc: Global, value: &Value) -> Result<Choices, PlanFault>
    ensures choices { IfOk result (λ c. choices_of (view value.now) ≡ Ok c) }
    ensures schemes { IfOk result (λ c. (1 ≤ length c.schemes) × (length c.schemes ≤ 16)) }
    ensures publish { IfOk result (λ c. is_oblivious c.publish ≡ true) }
    ensures margin { IfOk result (λ c. IfSome c.margin (λ m. (1 ≤ m.1) × (m.1 ≤ m.0) × (m.0 ≤ 1000))) }
    ensures refused { IfErr result (λ e. e ≢ fault.Memory → choices_of (view value.now) ≡ Err e) }
{
    let schemes = match value.get(Key::Schemes.word()) {
        Some(list) => read_schemes(alloc, list)?,
        None => Items::new(Vec::from_slice(alloc, &SchemeName::DEFAULT)?),
    };
    let recovery = match value.get(Key::Recovery.word()) {
        Some(name) => read_recovery(name)?,
        None => Recovery::Keep,
    };
    let publish = match value.get(Key::Publish.word()) {
        Some(name) => read_publish(name)?,
        None => SchemeName::Racke,
    };
    let margin = match value.get(Key::Margin.word()) {
        Some(list) => Some(read_margin(list)?),
        None => None,
    };
    Ok(Choices {
        schemes,
        recovery,
        publish,
        margin,
    })
}

// The numbers.
#[derive(Clone, Copy)]
struct Counts {
    k: u32,
    budget: u32,
    trees: u32,
    seed: u64,
    seeds: u32,
}

#[tactic(auto, unfolding(crate::specs::Plan::numbers_of))]
fn read_counts(value: &Value) -> Result<Counts, PlanFault>
    ensures counts { IfOk result (λ n. numbers_of (view value.now) ≡ Ok n) }
    ensures k { IfOk result (λ n. (1 ≤ n.k) × (n.k ≤ 32)) }
    ensures budget { IfOk result (λ n. (1 ≤ n.budget) × (n.budget ≤ 32)) }
    ensures trees { IfOk result (λ n. (1 ≤ n.trees) × (n.trees ≤ 16)) }
    ensures seeds { IfOk result (λ n. (1 ≤ n.seeds) × (n.seeds ≤ 64)) }
    ensures refused { IfErr result (λ e. numbers_of (view value.now) ≡ Err e) }
{
    let k = count(value, Key::K, 4, 1, 32)?;
    let budget = count(value, Key::Budget, 4, 1, 32)?;
    let trees = count(value, Key::Trees, 8, 1, 16)?;
    let seed = count(value, Key::Seed, 0, 0, u64::MAX)?;
    let seeds = count(value, Key::Seeds, 1, 1, 64)?;
    Ok(Counts {
        k: k as u32,
        budget: budget as u32,
        trees: trees as u32,
        seed,
        seeds: seeds as u32,
    })
}

// Whether an envelope is asked for, beside this margin.
fn asks_for_envelope(value: &Value, margin: Option<(u64, u64)>) -> Result<bool, PlanFault>
    ensures envelope { result ≡ envelope_at margin (view value.now) }
    ensures alone { IfOk result (λ asked. asked ≡ true → margin ≡ None) }
{
    match value.get(Key::Envelope.word()) {
        Some(asked) => read_envelope(margin, asked),
        None => Ok(false),
    }
}

// The number of a key, or the default where there is none.
fn count(value: &Value, key: Key, default: u64, low: u64, high: u64) -> Result<u64, PlanFault>
    requires low { low ≤ default }
    requires high { default ≤ high }
    ensures count { result ≡ count_of_key key default low high (view value.now) }
    ensures in_range { IfOk result (λ n. (low ≤ n) × (n ≤ high)) }
{
    match value.get(key.word()) {
        Some(number) => read_number(key, low, high, number),
        None => Ok(default),
    }
}
