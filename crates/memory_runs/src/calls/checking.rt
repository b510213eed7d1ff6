//! The calls that check programs.

use crate::once_or_twice;
use crate::trials::{ReportBuffer, SOURCE, TrialAnswer, certificate, loaded};
use effect_scan::{Member, Node, Scan};
use meta_model::Meta;
use rank_check::{No, Spot, check, unfit_wire, untyped};
use rank_make::{Why, make};
use sqlite_items::Items;
use std::alloc::{AllocError, Global};

/// The third wire's slot takes a text, where the signal's first parameter is a number.
const UNFIT: &str =
    "class A { signal s(int, QString); } class B { slot p() { } slot q(int i) { } slot r(QString t) { } } wire A s(int,QString) -> B p() direct; wire A s(int,QString) -> B q(int) direct; wire A s(int,QString) -> B r(QString) direct;";

/// A number's value at first is a text.
const UNTYPED: &str = "class A { property int p = \"x\"; }";

/// `unfit_wire`.
pub fn unfit(alloc: Global, told: &mut ReportBuffer) -> Option<TrialAnswer> {
    let meta = loaded(alloc, UNFIT)?;
    match unfit_wire(&meta) {
        Some(place) => told.count("wire ", place),
        None => told.bytes(b"each wire fits"),
    }
    Some(TrialAnswer::Ample)
}

/// `untyped`.
pub fn untyped_part(alloc: Global, told: &mut ReportBuffer) -> Option<TrialAnswer> {
    let meta = loaded(alloc, UNTYPED)?;
    Some(once_or_twice!(tell_untyped(alloc, &meta, told), true))
}

fn tell_untyped(alloc: Global, meta: &Meta, told: &mut ReportBuffer) -> TrialAnswer {
    match untyped(alloc, meta) {
        Ok(Some(Spot::Node(node))) => tell_node(&node, told),
        Ok(_) => return TrialAnswer::Other,
        Err(AllocError) => return TrialAnswer::Memory,
    }
    TrialAnswer::Ample
}

fn tell_node(node: &Node, told: &mut ReportBuffer) {
    told.count("class ", node.class);
    match node.member {
        Member::Method(number) => told.count(" method ", number),
        Member::Property(number) => told.count(" property ", number),
        Member::Destruction => told.bytes(b" destruction"),
    }
}

/// `Scan::of`.
pub fn scan(alloc: Global, told: &mut ReportBuffer) -> Option<TrialAnswer> {
    let meta = loaded(alloc, SOURCE)?;
    Some(once_or_twice!(tell_scan(alloc, &meta, told), true))
}

fn tell_scan(alloc: Global, meta: &Meta, told: &mut ReportBuffer) -> TrialAnswer {
    match Scan::of(alloc, meta) {
        Ok(scan) => {
            told.count("nodes ", scan.nodes().len());
            TrialAnswer::Ample
        }
        Err(AllocError) => TrialAnswer::Memory,
    }
}

fn scanned(alloc: Global) -> Option<Scan> {
    let meta = loaded(alloc, SOURCE)?;
    Scan::of(alloc, &meta).ok()
}

/// `nodes`.
pub fn nodes(alloc: Global, told: &mut ReportBuffer) -> Option<TrialAnswer> {
    let scan = scanned(alloc)?;
    for node in scan.nodes() {
        tell_node(node, told);
        told.end();
    }
    Some(TrialAnswer::Ample)
}

/// `edges`.
pub fn edges(alloc: Global, told: &mut ReportBuffer) -> Option<TrialAnswer> {
    let scan = scanned(alloc)?;
    Some(once_or_twice!(tell_edges(alloc, &scan, told), true))
}

fn tell_edges(alloc: Global, scan: &Scan, told: &mut ReportBuffer) -> TrialAnswer {
    match scan.edges(alloc) {
        Ok(edges) => {
            tell_pairs(edges.as_slice(), told);
            TrialAnswer::Ample
        }
        Err(AllocError) => TrialAnswer::Memory,
    }
}

fn tell_pairs(edges: &[(usize, usize)], told: &mut ReportBuffer) {
    for (from, to) in edges {
        told.count("", *from);
        told.count(" -> ", *to);
        told.end();
    }
}

/// `destroys`.
pub fn destroys(alloc: Global, told: &mut ReportBuffer) -> Option<TrialAnswer> {
    let scan = scanned(alloc)?;
    tell_sets(scan.destroys(), told);
    Some(TrialAnswer::Ample)
}

fn tell_sets(sets: &[Items<usize>], told: &mut ReportBuffer) {
    for classes in sets {
        for class in classes.as_slice() {
            told.count("class ", *class);
        }
        told.end();
    }
}

/// `make`.
pub fn made(alloc: Global, told: &mut ReportBuffer) -> Option<TrialAnswer> {
    let meta = loaded(alloc, SOURCE)?;
    Some(once_or_twice!(tell_made(alloc, &meta, told), true))
}

fn tell_made(alloc: Global, meta: &Meta, told: &mut ReportBuffer) -> TrialAnswer {
    match make(alloc, meta) {
        Ok(certificate) => {
            told.number("bound ", certificate.bound as u64);
            told.count(", lines ", certificate.lines.len());
            TrialAnswer::Ample
        }
        Err(Why::Memory) => TrialAnswer::Memory,
        Err(_) => TrialAnswer::Other,
    }
}

/// `check`, which takes over the program and the certificate.
pub fn checked(alloc: Global, told: &mut ReportBuffer) -> Option<TrialAnswer> {
    let meta = loaded(alloc, SOURCE)?;
    let certificate = certificate(alloc)?;
    match check(alloc, meta, certificate) {
        Ok(checked) => told.count("bound ", checked.bound()),
        Err(No::Memory) => return Some(TrialAnswer::Memory),
        Err(_) => return Some(TrialAnswer::Other),
    }
    Some(TrialAnswer::Ample)
}
