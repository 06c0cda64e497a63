ghost use Rattle.std.specs.Prelude.{◌≡◌};
ghost use Rattle.cp_archive.specs.Ranges.{content_eq};

use cp_model::Content;

/// Says whether two contents are the same. Costs the bytes of the shorter text.
pub(crate) fn is_same(one: &Content, other: &Content) -> bool
    ensures { result ≡ content_eq one.now other.now }
{
    match (one, other) {
        (Content::Node, Content::Node) => true,
        (Content::Leaf(value), Content::Leaf(other)) => value.is_same(other),
        _ => false,
    }
}
