//! What one value of a JSON text is as the content of a place.
ghost use Rattle.std.specs.Prelude.{◌≡◌, ◌≤◌, true, IfOk, Some, is_some, decimal, length, string_bytes};
ghost use Rattle.serde_json.specs.View.{view, number_view};
ghost use Rattle.cp_path.specs.declared.limits.TheConstants.{LABEL_MAX};
ghost use Rattle.cp_path.specs.declared.value.Value.TheVariants as leaf;
ghost use Rattle.cp_model.specs.declared.row.Content.TheVariants as content;
ghost use Rattle.cp_sources.specs.Places.{content_of, number_content, bytes_of};

use cp_model::Content;
use cp_path::{Label, Text, Value as Leaf, Whole};
use serde_json::{Number, Value};
use std::alloc::{AllocError, Global};

/// Whether the value is no number, or a whole one.
pub(crate) fn is_whole(value: &Value) -> bool
    ensures { result ≡ is_some (content_of (view value.now)) }
{
    match value {
        Value::Number(number) => !number.is_f64(),
        _ => true,
    }
}

/// The bytes of a text, and 0 where the value is none.
pub(crate) fn text_bytes(value: &Value) -> u64
    ensures { result ≡ bytes_of (content_of (view value.now)) }
{
    match value {
        Value::String(text) => text.len() as u64,
        _ => 0,
    }
}

fn whole_of(number: Number) -> Whole
    requires { is_some (number_content (number_view number)) ≡ true }
    ensures { number_content (number_view number) ≡ Some (content.Leaf (leaf.Whole result)) }
{
    if let Some(n) = number.as_u64() {
        return Whole::from(n);
    }
    let Some(z) = number.as_i64() else {
        unreachable!();
    };
    match Whole::new(i128::from(z)) {
        Some(whole) => whole,
        None => unreachable!(),
    }
}

/// What the value's place holds. Costs the bytes of a text.
pub(crate) fn content_of(alloc: Global, value: &Value) -> Result<Content, AllocError>
    requires { is_some (content_of (view value.now)) ≡ true }
    ensures { IfOk result (λ c. content_of (view value.now) ≡ Some c) }
{
    match value {
        Value::Null => Ok(Content::Leaf(Leaf::Null)),
        Value::Bool(flag) => if *flag {
            Ok(Content::Leaf(Leaf::True))
        } else {
            Ok(Content::Leaf(Leaf::False))
        },
        Value::Number(number) => Ok(Content::Leaf(Leaf::Whole(whole_of(*number)))),
        Value::String(text) => Ok(Content::Leaf(Leaf::Text(Text::copy_of(alloc, text.as_str())?))),
        Value::Array(_) => Ok(Content::Node),
        Value::Object(_) => Ok(Content::Node),
    }
}

/// The number of an array's item, as a text.
pub(crate) fn index_text(alloc: Global, index: u64) -> Result<String, AllocError>
    ensures { IfOk result (λ s. string_bytes s ≡ decimal index) }
{
    index.to_string(alloc)
}

/// The label of an array's item.
pub(crate) fn index_label(alloc: Global, index: u64) -> Result<Label, AllocError>
    requires short { length (decimal index) ≤ LABEL_MAX }
    ensures { IfOk result (λ a. a ≡ decimal index) }
{
    let text = index_text(alloc, index)?;
    Label::copy_of(alloc, text.as_str())
}
