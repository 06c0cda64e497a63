ghost use Rattle.std.specs.Prelude.{◌≡◌, true, false, is_some, IfOk};
ghost use Rattle.std.specs.Result.{result_map_both};
ghost use Rattle.std.specs.List.{list_all};
ghost use Rattle.serde_json.specs.View.{view};
ghost use Rattle.cp_path.specs.Answers.{Answers};
ghost use Rattle.cp_model.specs.Cases.{first_case};
ghost use Rattle.cp_path.specs.Place.{over_limit};
ghost use Rattle.cp_model.specs.Place.{Path};
ghost use Rattle.cp_model.specs.Subtrees.{is_there};
ghost use Rattle.cp_sources.specs.Places.{value_places};
ghost use Rattle.cp_sources.specs.JsonTrees.{without_mark, json_reading, first_fraction, tree_of_places, json_tree};
ghost use Rattle.cp_sources.specs.Surveys.{survey_refusals};
ghost use Rattle.cp_sources.specs.Growing.{AreWithinLimits};
ghost use Rattle.cp_sources.specs.Ordered.{HasRisingMembers};

use crate::build::tree_of;
use crate::fraction::first_fraction;
use crate::json_fault::JsonFault;
use crate::survey::Survey;
use cp_model::{NODES_MAX, WEIGHT_MAX};
use cp_path::{LABEL_MAX, LABELS_MAX, LOC_MAX, Name, Path, TEXT_MAX};
use cp_tree::TreeRep;
use serde_json::Value;
use serde_json::error::Category;
use std::alloc::{AllocError, Global};

/// Drops a byte order mark, if one stands in front.
fn without_mark(bytes: &[u8]) -> &[u8]
    ensures { result.now ≡ without_mark bytes.now }
{
    match bytes.strip_prefix(&[0xef, 0xbb, 0xbf]) {
        Some(rest) => rest,
        None => bytes,
    }
}

/// Reads the value that the bytes are.
#[tactic(auto, using(crate::proofs::Parsing::value_read, crate::proofs::Parsing::value_refused))]
fn parsed(alloc: Global, text: &[u8]) -> Result<Value, JsonFault>
    ensures answers { Answers JsonFault.Memory (json_reading text.now) (result_map_both view (λ e. e) result) }
{
    match Value::from_slice(alloc, text) {
        Ok(value) => Ok(value),
        Err(error) => {
            if error.classify() == Category::Memory {
                return Err(JsonFault::Memory);
            }
            Err(JsonFault::NotJson)
        }
    }
}

/// Finds the first limit that is passed, if one is.
fn refusal(survey: Survey) -> Option<JsonFault>
    ensures { result ≡ first_case (survey_refusals survey) }
{
    if survey.last > LABEL_MAX as u64 {
        return Some(JsonFault::LabelTooLong);
    }
    if survey.depth > LABELS_MAX as u64 {
        return Some(JsonFault::TooDeep);
    }
    if survey.size > LOC_MAX as u64 {
        return Some(JsonFault::PathTooLong);
    }
    if survey.text > TEXT_MAX as u64 {
        return Some(JsonFault::TextTooLong);
    }
    if survey.places > u64::from(NODES_MAX) {
        return Some(JsonFault::TooMany);
    }
    if survey.weight > WEIGHT_MAX {
        return Some(JsonFault::TooBig);
    }
    None
}

/// Finds the first number that isn't whole, which is looked for where there is one.
#[tactic(auto, using(crate::proofs::Looking::none_found))]
fn fraction(alloc: Global, survey: Survey, value: &Value) -> Result<Option<Path>, AllocError>
    requires near { AreWithinLimits (view value.now) }
    requires whole { survey.whole ≡ list_all (λ e. is_some e.1) (value_places (view value.now)) }
    ensures { IfOk result (λ o. o ≡ first_fraction (value_places (view value.now))) }
{
    if survey.whole {
        return Ok(None);
    }
    first_fraction(alloc, value)
}

/// Makes the tree of a value whose objects have each name once.
fn tree_of_value<R: TreeRep>(alloc: Global, name: &Name, value: &Value) -> Result<R, JsonFault>
    requires ordered { HasRisingMembers (view value.now) }
    ensures answers { Answers JsonFault.Memory (tree_of_places name.now (value_places (view value.now))) (result_map_both R.contents (λ e. e) result) }
    ensures places { IfOk result (λ t. (p : Path) → is_there (R.contents t) p ≡ true → over_limit (record { db = name.now; path = p }) ≡ false) }
{
    let survey = Survey::of(alloc, name.as_str(), value)?;
    if let Some(fault) = refusal(survey) {
        return Err(fault);
    }
    match fraction(alloc, survey, value)? {
        Some(place) => Err(JsonFault::NotWhole(place)),
        None => Ok(tree_of(alloc, value)?),
    }
}

/// Reads the tree of a JSON text that is loaded under `name`.
///
/// An object is a node whose labels are its members' names, and of a repeated name the last value counts; an array is a
/// node with the labels `0`, `1` and so on; all else is a leaf. One byte order mark in front is dropped.
/// Where several refusals apply, the first in the order of `JsonFault` is given. Costs the bytes, and adding each place.
#[tactic(auto, using(crate::proofs::Fitting::json_is, crate::proofs::Fitting::json_none, crate::proofs::Ordered::read_ordered))]
pub fn tree_of_json<R: TreeRep>(alloc: Global, name: &Name, bytes: &[u8]) -> Result<R, JsonFault>
    ensures answers { Answers JsonFault.Memory (json_tree name.now bytes.now) (result_map_both R.contents (λ e. e) result) }
    ensures places { IfOk result (λ t. (p : Path) → is_there (R.contents t) p ≡ true → over_limit (record { db = name.now; path = p }) ≡ false) }
{
    let value = parsed(alloc, without_mark(bytes))?;
    tree_of_value(alloc, name, &value)
}
