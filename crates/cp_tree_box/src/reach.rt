ghost use Rattle.std.specs.Prelude.{◌^◌, ◌≡◌, ◌≤◌, ◌<◌, ◌+◌, max};
ghost use Rattle.cp_model.specs.Keyed.{entries};
ghost use Rattle.cp_tree.specs.Rows.{reach_of};
ghost use Rattle.cp_tree_box.specs.Tallies.{AreNear, places, weighs, place_counts, tree_counts, root_spot, IsReachWith};

use crate::count::text_bytes;
use crate::node::BoxNode;
use crate::spot::Spot;
use cp_model::{Content, PLACE_WEIGHT};
use cp_tree::Reach;

/// Extends the reach by one place.
fn reach_place(reach: &mut Reach, at: Spot, content: &Content)
    requires nodes { reach.old.nodes + 1 < 2 ^ 32 }
    requires inner { reach.old.inner + place_counts weighs at content.now < 2 ^ 32 }
    ensures nodes { reach.new.nodes ≡ reach.old.nodes + 1 }
    ensures inner { reach.new.inner ≡ reach.old.inner + place_counts weighs at content.now }
    ensures depth { reach.new.depth ≡ max reach.old.depth at.depth }
    ensures size { reach.new.size ≡ max reach.old.size at.size }
{
    reach.nodes += 1;
    reach.inner += PLACE_WEIGHT + u64::from(at.last) + text_bytes(content);
    reach.depth = reach.depth.max(at.depth);
    reach.size = reach.size.max(at.size);
}

/// Extends the reach by the places of a subtree that lies there. Costs their number.
fn reach_subtree(reach: &mut Reach, at: Spot, node: &BoxNode)
    requires near { AreNear at node.now }
    requires nodes { reach.old.nodes + tree_counts places at node.now < 2 ^ 32 }
    requires inner { reach.old.inner + tree_counts weighs at node.now < 2 ^ 32 }
    ensures { IsReachWith at node.now reach.old reach.new }
{
    reach_place(reach, at, &node.content);
    for (label, child) in &node.children {
        reach_subtree(reach, at.child(label), child);
    }
}

/// Measures how far the tree of the node reaches. Costs its places.
pub(crate) fn reach_of(node: &BoxNode) -> Reach
    requires near { AreNear root_spot node.now }
    requires nodes { tree_counts places root_spot node.now < 2 ^ 32 }
    requires inner { tree_counts weighs root_spot node.now < 2 ^ 32 }
    ensures { result ≡ reach_of (entries node.now) }
{
    let mut reach = Reach {
        nodes: 0,
        inner: 0,
        depth: 0,
        size: 0,
    };
    reach_subtree(&mut reach, Spot::root(), node);
    reach
}
