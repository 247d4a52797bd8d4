//! The values of a plan's keys.

ghost use Rattle.std.specs.Prelude.{◌≡◌, ◌≢◌, ◌≤◌, IfOk, IfErr, Ok, Err, None, [], length, option_and_then, true};
ghost use Rattle.serde_json.specs.Find.{as_str};
ghost use Rattle.serde_json.specs.View.{view, items_view};
ghost use Rattle.plan.specs.declared.fault.PlanFault.TheVariants as fault;
ghost use Rattle.plan.specs.Words.{is_oblivious, scheme_named};
ghost use Rattle.plan.specs.Values.{text_value, number_within, margin_of, envelope_value, recovery_of, publish_of, schemes_of, are_texts};

use crate::fault::PlanFault;
use crate::key::Key;
use crate::recovery::Recovery;
use crate::scheme_name::SchemeName;
use serde_json::Value;
use std::alloc::Global;
use te_model::{Items, Name};

/// A text that is not empty.
pub fn read_text(alloc: Global, key: Key, value: &Value) -> Result<Name, PlanFault>
    ensures text { IfOk result (λ t. text_value key (view value.now) ≡ Ok t) }
    ensures filled { IfOk result (λ t. t ≢ []) }
    ensures refused { IfErr result (λ e. e ≢ fault.Memory → text_value key (view value.now) ≡ Err e) }
{
    let Some(text) = value.as_str() else {
        return Err(PlanFault::Kind(key));
    };
    if text.is_empty() {
        return Err(PlanFault::Range(key));
    }
    Ok(Name::new(String::from_str(alloc, text)?))
}

/// A whole number from `low` to `high`.
pub fn read_number(key: Key, low: u64, high: u64, value: &Value) -> Result<u64, PlanFault>
    ensures number { result ≡ number_within key low high (view value.now) }
    ensures in_range { IfOk result (λ n. (low ≤ n) × (n ≤ high)) }
{
    let Some(number) = value.as_u64() else {
        return Err(PlanFault::Kind(key));
    };
    if low <= number && number <= high {
        Ok(number)
    } else {
        Err(PlanFault::Range(key))
    }
}

/// The margin: two whole numbers from 1 to 1000, the first at least the second.
pub fn read_margin(value: &Value) -> Result<(u64, u64), PlanFault>
    ensures margin { result ≡ margin_of (view value.now) }
    ensures in_range { IfOk result (λ m. (1 ≤ m.1) × (m.1 ≤ m.0) × (m.0 ≤ 1000)) }
{
    let Some(list) = value.as_array() else {
        return Err(PlanFault::Kind(Key::Margin));
    };
    let [num, den] = list.as_slice() else {
        return Err(PlanFault::Kind(Key::Margin));
    };
    let Some(num) = num.as_u64() else {
        return Err(PlanFault::Kind(Key::Margin));
    };
    let Some(den) = den.as_u64() else {
        return Err(PlanFault::Kind(Key::Margin));
    };
    if 1 <= den && den <= num && num <= 1000 {
        Ok((num, den))
    } else {
        Err(PlanFault::Range(Key::Margin))
    }
}

/// Whether an envelope is asked for, which cannot stand beside a margin.
pub fn read_envelope(margin: Option<(u64, u64)>, value: &Value) -> Result<bool, PlanFault>
    ensures envelope { result ≡ envelope_value margin (view value.now) }
    ensures alone { IfOk result (λ asked. asked ≡ true → margin ≡ None) }
{
    let Some(asked) = value.as_bool() else {
        return Err(PlanFault::Kind(Key::Envelope));
    };
    if asked && margin.is_some() {
        return Err(PlanFault::Range(Key::Envelope));
    }
    Ok(asked)
}

/// The recovery that a word names.
pub fn read_recovery(value: &Value) -> Result<Recovery, PlanFault>
    ensures { result ≡ recovery_of (view value.now) }
{
    let Some(text) = value.as_str() else {
        return Err(PlanFault::Kind(Key::Recovery));
    };
    match Recovery::from_word(text) {
        Some(recovery) => Ok(recovery),
        None => Err(PlanFault::Range(Key::Recovery)),
    }
}

/// The oblivious scheme that a word names.
pub fn read_publish(value: &Value) -> Result<SchemeName, PlanFault>
    ensures publish { result ≡ publish_of (view value.now) }
    ensures oblivious { IfOk result (λ s. is_oblivious s ≡ true) }
{
    let Some(text) = value.as_str() else {
        return Err(PlanFault::Kind(Key::Publish));
    };
    match SchemeName::from_word(text) {
        Some(scheme) if scheme.is_oblivious() => Ok(scheme),
        _ => Err(PlanFault::SchemeName(Key::Publish)),
    }
}

/// One to sixteen schemes that a list of words names.
pub fn read_schemes(alloc: Global, value: &Value) -> Result<Items<SchemeName>, PlanFault>
    ensures schemes { IfOk result (λ s. schemes_of (view value.now) ≡ Ok s) }
    ensures count { IfOk result (λ s. (1 ≤ length s) × (length s ≤ 16)) }
    ensures refused { IfErr result (λ e. e ≢ fault.Memory → schemes_of (view value.now) ≡ Err e) }
{
    let Some(list) = value.as_array() else {
        return Err(PlanFault::Kind(Key::Schemes));
    };
    let list = list.as_slice();
    if !are_texts(list) {
        return Err(PlanFault::Kind(Key::Schemes));
    }
    if list.is_empty() || list.len() > 16 {
        return Err(PlanFault::Range(Key::Schemes));
    }
    let mut schemes = Vec::new(alloc);
    for item in list {
        let Some(scheme) = named_scheme(item) else {
            return Err(PlanFault::SchemeName(Key::Schemes));
        };
        schemes.push(scheme)?;
    }
    Ok(Items::new(schemes))
}

// The scheme that a text names.
fn named_scheme(value: &Value) -> Option<SchemeName>
    ensures { result ≡ option_and_then scheme_named (as_str (view value.now)) }
{
    SchemeName::from_word(value.as_str()?)
}

// Whether each value is a text.
fn are_texts(list: &[Value]) -> bool
    ensures { result ≡ are_texts (items_view list.now) }
{
    for item in list {
        if !item.is_string() {
            return false;
        }
    }
    true
}
