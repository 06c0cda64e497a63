ghost use Rattle.std.specs.Prelude.{◌≡◌, ◌↔◌, IsTrue};

use crate::text::Text;
use crate::whole::Whole;

/// What a leaf holds.
#[derive(Clone, PartialEq, Eq, Drop)]
pub enum Value {
    Null,
    False,
    True,
    Whole(Whole),
    /// A text, of at most [`TEXT_MAX`] bytes where it stands in a tree.
    Text(Text),
}

impl Value {
    /// Whether two values are the same. Costs the bytes of the shorter text.
    pub fn is_same(&self, other: &Value) -> bool
        ensures { IsTrue result ↔ (self.now ≡ other.now) }
    {
        match (self, other) {
            (Value::Null, Value::Null) => true,
            (Value::False, Value::False) => true,
            (Value::True, Value::True) => true,
            (Value::Whole(m), Value::Whole(n)) => m.get() == n.get(),
            (Value::Text(s), Value::Text(t)) => s == t,
            _ => false,
        }
    }
}
