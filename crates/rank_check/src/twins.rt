//! Nodes that lead to the same ones as a node before them.

ghost use Rattle.std.specs.Prelude.{◌≡◌, ◌<◌, IfSome};
ghost use Rattle.effect_scan.specs.Rows.{row};

use effect_scan::Scan;
use sqlite_items::at;

/// The number of a node before this one that leads to the same nodes, where one is known.
pub fn earlier_twin(scan: &Scan, node: usize) -> Option<usize>
    ensures { IfSome result (λ twin. (twin < node) × (row scan.now.rows twin ≡ row scan.now.rows node)) }
{
    let twin = *at(scan.alike(), node)?;
    if twin < node { Some(twin) } else { None }
}
