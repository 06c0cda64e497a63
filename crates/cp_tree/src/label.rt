ghost use Rattle.std.specs.Prelude.{◌≡◌, ◌≤◌, length, IfOk};
ghost use Rattle.cp_path.specs.Text.{text_cmp};

use arrayvec::ArrayString;
use cp_path::{LABEL_MAX, Label};
use std::alloc::{AllocError, Global};
use std::cmp::Ordering;
use std::marker::Model;
use std::rc::Rc;

/// A label: one of at most 16 bytes in place, a longer one shared.
#[derive(Drop)]
pub struct SharedLabel {
    form: LabelForm,
}

#[derive(Drop)]
enum LabelForm {
    Short(ArrayString<16>),
    Long(Rc<Label>),
}

impl Model for SharedLabel {
    ghost use Rattle.std.specs.Prelude.{ℕ, List};
    ghost use Rattle.cp_tree.specs.Shared.{label_of};

    ghost Value = { List ℕ };

    ghost view = { λ a. label_of a.form };
}

impl SharedLabel {
    /// Keeps the label. Costs its bytes.
    pub fn of(alloc: Global, label: &Label) -> Result<SharedLabel, AllocError>
        ensures { IfOk result (λ n. n ≡ label.now) }
    {
        match ArrayString::from(label.as_str()) {
            Ok(short) => Ok(SharedLabel {
                form: LabelForm::Short(short),
            }),
            Err(_) => Ok(SharedLabel {
                form: LabelForm::Long(Rc::new(alloc, label.clone()?)?),
            }),
        }
    }

    /// Shares the label.
    pub fn share(&self) -> Result<SharedLabel, AllocError>
        ensures { IfOk result (λ n. n ≡ self.now) }
    {
        match &self.form {
            LabelForm::Short(short) => Ok(SharedLabel {
                form: LabelForm::Short(*short),
            }),
            LabelForm::Long(long) => Ok(SharedLabel {
                form: LabelForm::Long(long.clone()?),
            }),
        }
    }

    /// Gives the label's text.
    pub fn as_str(&self) -> &str
        ensures text { result.now ≡ self.now }
        ensures short { length self.now ≤ LABEL_MAX }
    {
        match &self.form {
            LabelForm::Short(short) => short.as_str(),
            LabelForm::Long(long) => long.as_str(),
        }
    }

    /// Copies the label. Costs its bytes.
    pub fn to_label(&self, alloc: Global) -> Result<Label, AllocError>
        ensures { IfOk result (λ a. a ≡ self.now) }
    {
        Label::copy_of(alloc, self.as_str())
    }

    /// Compares a label with this one.
    pub fn order_of(&self, label: &Label) -> Ordering
        ensures { result ≡ text_cmp label.now self.now }
    {
        label.as_str().cmp(self.as_str())
    }

    /// Compares a kept label with this one.
    pub fn order_of_shared(&self, label: &SharedLabel) -> Ordering
        ensures { result ≡ text_cmp label.now self.now }
    {
        label.as_str().cmp(self.as_str())
    }
}
