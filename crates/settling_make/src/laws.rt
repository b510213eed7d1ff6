//! What no program with a valid settling certificate has.

ghost use Rattle.effect_scan.specs.declared.node.Node.{Node};
ghost use Rattle.settling_make.specs.Circles.{DoesNotSettle, LeadsToEnd, NoneIsValid};
ghost use Rattle.settling_make.specs.Makes.{IsLong};
ghost use Rattle.settling_make.specs.declared.circles.Circle.{Circle};

use effect_scan::edges_join_nodes;
use meta_model::Meta;

/// Where a circle doesn't settle, edges lead from a slot or native of a class C to a `~X` whose closure holds C, or a chain along circles
/// has 256 edges and none of them into a property, no settling certificate is valid.
pub fn none_is_valid(meta: &Meta)
    ensures circles { (circle : Circle) → DoesNotSettle meta.now circle → NoneIsValid meta.now }
    ensures ends { (x : Node) → LeadsToEnd meta.now x → NoneIsValid meta.now }
    ensures long { (x : Node) → IsLong meta.now x → NoneIsValid meta.now }
{
    // All edges are between nodes.
    edges_join_nodes(meta);
}
