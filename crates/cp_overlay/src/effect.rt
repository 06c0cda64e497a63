//! The effect of the step at a place.
ghost use Rattle.std.specs.Prelude.{◌≡◌, ◌≤◌, ◌+◌, ◌*◌, length, sum_by};
ghost use Rattle.std.specs.declared.option.Option.TheVariants.{Some};
ghost use Rattle.cp_path.specs.declared.limits.TheConstants.{LABEL_MAX, LABELS_MAX};
ghost use Rattle.cp_path.specs.Place.{place_eq, over_limit};
ghost use Rattle.cp_model.specs.Place.{at_target, below_place};
ghost use Rattle.cp_model.specs.Tree.{Tree};
ghost use Rattle.cp_model.specs.Step.{Working};
ghost use Rattle.cp_model.specs.declared.effect.Effect.{Effect};
ghost use Rattle.cp_model.specs.Rows.{effect, effect_at};
ghost use Rattle.cp_model.specs.Rows.{limited};
ghost use Rattle.cp_overlay.specs.Kept.{IsWorking, Stands, origin_at};
ghost use Rattle.cp_overlay.specs.Seen.{seen};
ghost use Rattle.cp_overlay.specs.Effects.{told};

use crate::origins::nearest_to;
use crate::overlay::Overlay;
use cp_model::Origin;
use cp_path::{LABEL_MAX, LABELS_MAX, LOC_MAX, Label, Loc, LocRoom, Path};

/// What a step has done to a place that is there after it: its data is the same, new, or from another place.
#[derive(Clone, Copy, PartialEq, Eq)]
pub enum Tag {
    Same,
    New,
    From,
}

impl Overlay {
    /// The effect of the step at a place of its working tree; where the data is from another place, `out` holds that place.
    /// A place over a limit of places counts as none. Costs a look-up for each label, and takes no memory.
    pub fn effect_at(&self, place: &Path, out: &mut LocRoom) -> Tag
        ensures exact { told result out.new ≡ limited (effect place.now (origin_at (seen self.now).origins place.now)) }
        ensures step { (t : Tree) (w : Working) (e : Effect) → IsWorking w → Stands (seen self.now) t w → effect_at w place.now ≡ Some e → told result out.new ≡ e }
    {
        match nearest_to(&self.origins, place.labels()) {
            None => Tag::Same,
            Some((Origin::New, _)) => Tag::New,
            Some((Origin::Was(from), count)) => {
                let (front, rest) = place.labels().split_at(count);
                if is_own(from, front) || is_over(from, rest) {
                    return Tag::Same;
                }
                out.set(from, place, count);
                Tag::From
            }
        }
    }
}

/// Whether a place is that of these labels in T.
pub(crate) fn is_own(place: &Loc, labels: &[Label]) -> bool
    ensures { result ≡ place_eq place.now (at_target labels.now) }
{
    place.db.is_target() && place.path.labels() == labels
}

/// Whether the place below another at these labels is over a limit of places. Costs its labels.
fn is_over(from: &Loc, labels: &[Label]) -> bool
    requires { length labels.now ≤ LABELS_MAX }
    ensures { result ≡ over_limit (below_place from.now labels.now) }
{
    from.path.labels().len() + labels.len() > LABELS_MAX
        || from.size() + bytes_of(labels) > LOC_MAX as u32
}

/// What these labels add to a place's size.
fn bytes_of(labels: &[Label]) -> u32
    requires { length labels.now ≤ LABELS_MAX }
    ensures bytes { result ≡ sum_by (λ a. length a + 1) labels.now }
    ensures bound { result ≤ LABELS_MAX * (LABEL_MAX + 1) }
{
    let mut total = 0;
    for label in labels {
        total += label.as_str().len() as u32 + 1;
    }
    total
}
