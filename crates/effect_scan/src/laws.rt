//! What holds of the nodes and edges of every program that loads.

ghost use Rattle.effect_scan.specs.Laws.{EdgesJoinNodes};

use meta_model::Meta;

/// No edge leads from or to anything but a node of the program: so the edges of a scan are all that may lead anywhere.
pub fn edges_join_nodes(meta: &Meta)
    ensures { EdgesJoinNodes meta.now }
{
    let _classes = meta.classes();
}
