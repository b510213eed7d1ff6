//! The diagram of a trace, line by line.

use crate::diagrams::drawing::{Arrow, SequenceDrawing};
use crate::reading::{LineKind, TraceLine};
use std::alloc::{AllocError, Global};
use texts::split_line;

/// The sequence diagram of a trace, in the language of Mermaid, in whole lines. Lines that are none of a trace are left out.
/// An arrow leads from the object whose activation brings something about to the object where it happens; what an event of
/// the script brings about comes from the script.
pub fn sequence_diagram(alloc: Global, trace: &[u8]) -> Result<String, AllocError> {
    let mut drawing = SequenceDrawing::new(alloc);
    let mut left = trace;
    while let Some((line, rest)) = split_line(left) {
        left = rest;
        match TraceLine::of(line) {
            Some(TraceLine::Accepted(_) | TraceLine::Refused(_, _) | TraceLine::Fault(_)) => {
                drawing.restart(line)?;
            }
            Some(TraceLine::At(depth, kind)) => {
                draw(&mut drawing, depth_of(depth), kind, behind(line, b' '))?;
            }
            None => {}
        }
    }
    drawing.finish(alloc)
}

/// A depth as a size; no activation nests deeper than 256.
fn depth_of(depth: u64) -> usize {
    usize::try_from(depth).unwrap_or(usize::MAX)
}

/// Draws what a line says that happens at a depth, of which this comes after the depth.
fn draw<'t>(
    drawing: &mut SequenceDrawing<'t>,
    depth: usize,
    kind: LineKind,
    told: &'t [u8],
) -> Result<(), AllocError> {
    let said = behind(told, b' ');
    let (name, member) = (before(said, b'.'), behind(said, b'.'));
    match kind {
        LineKind::Emit => drawing.begin(depth, Arrow::Solid, name, &[b"emit ", member]),
        LineKind::Call => drawing.begin(depth, Arrow::Solid, name, &[member]),
        LineKind::Set => drawing.begin(depth, Arrow::Solid, name, &[b"set ", member]),
        LineKind::Bind => drawing.begin(depth, Arrow::Solid, name, &[b"bind ", member]),
        LineKind::Dead => drawing.begin(depth, Arrow::Cross, said, &[b"dead"]),
        LineKind::Follow => drawing.reach(depth, Arrow::Dashed, name, &[b"follow ", member]),
        LineKind::Post => draw_post(drawing, depth, said),
        LineKind::Group => drawing.begin_group(depth),
        LineKind::Native
        | LineKind::Connect
        | LineKind::Disconnect
        | LineKind::Refused(_)
        | LineKind::Null => drawing.note(drawing.at(depth), told),
    }
}

/// Draws that a call or a deletion is posted to an event loop.
fn draw_post<'t>(
    drawing: &mut SequenceDrawing<'t>,
    depth: usize,
    said: &'t [u8],
) -> Result<(), AllocError> {
    let (home, item) = (before(said, b' '), behind(said, b' '));
    match item.strip_prefix(b"~".as_slice()) {
        Some(name) => drawing.reach(depth, Arrow::Open, name, &[b"delete, in ", home]),
        None => {
            let (name, member) = (before(item, b'.'), behind(item, b'.'));
            drawing.reach(depth, Arrow::Open, name, &[member, b", in ", home])
        }
    }
}

/// What a text has in front of the first such byte; the text where it has none.
fn before(text: &[u8], byte: u8) -> &[u8] {
    match text.iter().position(|each| *each == byte) {
        Some(at) => text.get(..at).unwrap_or(text),
        None => text,
    }
}

/// What a text has behind the first such byte; nothing where it has none.
fn behind(text: &[u8], byte: u8) -> &[u8] {
    match text.iter().position(|each| *each == byte) {
        Some(at) => text.get(at.saturating_add(1)..).unwrap_or(&[]),
        None => &[],
    }
}
