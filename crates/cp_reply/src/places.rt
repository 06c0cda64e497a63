ghost use Rattle.std.specs.Prelude.{◌≡◌, ◌++◌, IfOk, OnOk, string_bytes, codes, flat_map};
ghost use Rattle.cp_path.specs.Spelling.{place_text};
ghost use Rattle.cp_reply.specs.Lines.{places_text};

use cp_path::Loc;
use cp_spelling::place_text;
use std::alloc::{AllocError, Global};

/// Each place behind a space.
fn push_each(alloc: Global, text: &mut String, places: &[Loc]) -> Result<(), AllocError>
    ensures { OnOk result (string_bytes text.new ≡ string_bytes text.old ++ flat_map (λ q. codes " " ++ place_text q) places.now) }
{
    for place in places {
        let place = place_text(alloc, place)?;
        text.push_str(" ")?;
        text.push_str(place.as_str())?;
    }
    Ok(())
}

/// Each place behind a space, or none.
#[tactic(auto, using(crate::proofs::Between::places_of, crate::proofs::Between::no_places))]
fn push_places(alloc: Global, text: &mut String, places: &[Loc]) -> Result<(), AllocError>
    ensures { OnOk result (string_bytes text.new ≡ string_bytes text.old ++ (codes " " ++ places_text places.now)) }
{
    if places.is_empty() {
        text.push_str(" none")?;
        return Ok(());
    }
    push_each(alloc, text, places)
}

/// The place, and those that use it.
pub(crate) fn uses_text(alloc: Global, place: &Loc, places: &[Loc]) -> Result<String, AllocError>
    ensures { IfOk result (λ s. string_bytes s ≡ codes "uses " ++ (place_text place.now ++ (codes ": " ++ places_text places.now))) }
{
    let place = place_text(alloc, place)?;
    let mut text = format!(in alloc; "uses {place}:")?;
    push_places(alloc, &mut text, places)?;
    Ok(text)
}
