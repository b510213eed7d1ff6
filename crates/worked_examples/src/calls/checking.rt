//! What members may lead to at once, and what is kept of a program with a valid certificate. What has to be written was worked out
//! by hand from docs/certificate.md.

use crate::calls::loading::loaded;
use anyhow::Result;
use effect_scan::Scan;
use rank_check::{check, read_certificate};

/// The nodes of `QObject` are 0 to 4: `destroyed(QObject*)`, `objectNameChanged(QString)`, `deleteLater()`, `objectName` and its
/// destruction. Those of `Source` are 5 to 12, with `changed(int)` as 8, `setValue(int)` as 9, `objectName` as 10, `value` as
/// 11; those of `Label` are 13 to 19, with `show(int)` as 16, `objectName` as 17, `shown` as 18. Notify signals lead on,
/// `destroyed(QObject*)` of what may die, the wire, what slots write, and the binding.
const PROGRAM: &str =
    "class Source { property int value notify changed(int); signal changed(int); slot setValue(int v) { set this.value = v; } } class Label { property int shown; slot show(int v) { set this.shown = v; } } wire Source changed(int) -> Label show(int) auto; owns Source Label; binding b Label.shown (Source s) = s.value;";

const CERTIFICATE: &str =
    "certificate 1\nbound 256\n~QObject 255 QObject\nQObject.objectName 7\nQObject.destroyed(QObject*) 254\nQObject.deleteLater() 0\nQObject.objectNameChanged(QString) 6\n";

/// Writes what leads to what, and what is kept.
pub fn tell_checking<R: Print + AllocGlobal>(rt: &R) -> Result<()> {
    tell_edges(rt)?;
    tell_kept(rt)
}

/// Writes from each node to which it may lead.
fn tell_edges<R: Print + AllocGlobal>(rt: &R) -> Result<()> {
    let meta = loaded(rt.alloc(), PROGRAM)?;
    let scan = Scan::of(rt.alloc(), &meta)?;
    let edges = scan.edges(rt.alloc())?;
    println!(rt; "{} nodes, {} edges", scan.nodes().len(), edges.len())?;
    for (from, to) in edges.as_slice() {
        println!(rt; "{from} -> {to}")?;
    }
    Ok(())
}

/// Writes what is known of a program that was checked.
fn tell_kept<R: Print + AllocGlobal>(rt: &R) -> Result<()> {
    let meta = loaded(rt.alloc(), "")?;
    let certificate = read_certificate(rt.alloc(), CERTIFICATE.as_bytes())?;
    let checked = check(rt.alloc(), meta, certificate)?;
    println!(rt;
        "The bound {}, and {} class",
        checked.bound(),
        checked.meta().classes().len()
    )?;
    let meta = checked.into_meta();
    println!(rt; "{} wires", meta.wires().len())?;
    Ok(())
}
