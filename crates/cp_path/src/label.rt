ghost use Rattle.std.specs.Prelude.{◌≡◌, ◌≤◌, ◌<◌, ◌↔◌, ◌⊎◌, length, IfOk, IfErr};

use crate::fault::PathFault;
use crate::limits::LABEL_MAX;
use crate::text::Text;
use std::alloc::{AllocError, Global};
use std::marker::Model;

/// The name of an edge: any text of at most [`LABEL_MAX`] bytes, the empty one included.
#[derive(PartialEq, Eq, PartialOrd, Ord, Hash, Drop)]
pub struct Label {
    text: Text,
}

impl Model for Label {
    ghost use Rattle.cp_path.specs.declared.limits.TheConstants.{LABEL_MAX};
    ghost use Rattle.std.specs.Prelude.{ℕ, ◌≤◌, List, length};

    ghost Value = { List ℕ };

    ghost view = { λ a. a.text };

    ghost invariant = { λ a. length a.text ≤ LABEL_MAX };

    ghost inverse = { λ t. record { text = t } };
}

impl Clone for Label {
    ghost is_clone = { λ a b. b ≡ a };

    fn clone(&self) -> Result<Label, AllocError> {
        Ok(Label {
            text: self.text.clone()?,
        })
    }
}

impl Label {
    /// The label with this text. Costs its bytes.
    pub fn new(alloc: Global, text: &str) -> Result<Label, PathFault>
        ensures value { IfOk result (λ a. a ≡ text.now) }
        ensures short { IfOk result (λ a. length a ≤ LABEL_MAX) }
        ensures long { (result ≡ Err PathFault.LabelTooLong) ↔ (LABEL_MAX < length text.now) }
        ensures faults { IfErr result (λ e. (e ≡ PathFault.LabelTooLong) ⊎ (e ≡ PathFault.Memory)) }
    {
        if text.len() > LABEL_MAX {
            return Err(PathFault::LabelTooLong);
        }
        Ok(Label::copy_of(alloc, text)?)
    }

    /// A label of its own with this text, which isn't too long. Costs its bytes.
    pub fn copy_of(alloc: Global, text: &str) -> Result<Label, AllocError>
        requires short { length text.now ≤ LABEL_MAX }
        ensures { IfOk result (λ a. a ≡ text.now) }
    {
        Ok(Label {
            text: Text::copy_of(alloc, text)?,
        })
    }

    /// The label's text.
    pub fn as_str(&self) -> &str
        ensures text { result.now ≡ self.now }
        ensures short { length self.now ≤ LABEL_MAX }
    {
        self.text.as_str()
    }
}
