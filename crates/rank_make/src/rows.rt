//! The classes that nodes have of their own, and the nodes of numbers.

ghost use Rattle.std.specs.Prelude.{◌≡◌, ◌<◌, ℕ, length, IfOk};
ghost use Rattle.std.specs.List.{Contains, AllZip};
ghost use Rattle.effect_scan.specs.Nodes.{IsAt};
ghost use Rattle.rank_make.specs.Solved.{own_of, own_rows};

use effect_scan::{Member, Node, Scan, row_at};
use sqlite_items::Items;
use std::alloc::{AllocError, Global};

/// For each node the classes whose objects are destroyed at once with it: those of the closure of C for `~C`, none for
/// any other node. Its error is that memory was refused.
pub fn own_rows(alloc: Global, scan: &Scan) -> Result<Items<Items<usize>>, AllocError>
    ensures { IfOk result (λ rows. rows ≡ own_rows scan.now) }
{
    let mut rows = Items::from_vec(Vec::with_capacity(alloc, scan.nodes().len())?);
    for node in scan.nodes() {
        let row = own_row(alloc, scan, *node)?;
        rows.push(row)?;
    }
    Ok(rows)
}

/// The classes whose objects are destroyed at once with this node. Its error is that memory was refused.
fn own_row(alloc: Global, scan: &Scan, node: Node) -> Result<Items<usize>, AllocError>
    ensures { IfOk result (λ row. row ≡ own_of scan.now.closures node) }
{
    let mut row = Items::new(alloc);
    if let Member::Destruction = node.member {
        for class in row_at(scan.destroys(), node.class) {
            row.push(*class)?;
        }
    }
    Ok(row)
}

/// The nodes of these numbers. Its error is that memory was refused.
pub fn nodes_at(alloc: Global, scan: &Scan, numbers: &[usize]) -> Result<Items<Node>, AllocError>
    requires { (n : ℕ) → Contains numbers.now n → n < length scan.now.nodes }
    ensures { IfOk result (AllZip (λ n x. IsAt scan.now.nodes x n) numbers.now) }
{
    let all = scan.nodes();
    let mut nodes = Items::new(alloc);
    for number in numbers {
        nodes.push(all[*number])?;
    }
    Ok(nodes)
}
