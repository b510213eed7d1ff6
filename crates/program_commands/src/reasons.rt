//! Why a program has no certificate, in a line.

ghost use Rattle.std.specs.Prelude.{◌≡◌, ◌++◌, codes};
ghost use Rattle.command_lines.specs.Sent.{Puts};
ghost use Rattle.type_check.specs.declared.spot.Spot.TheVariants.{Binding};
ghost use Rattle.program_commands.specs.Reasons.{spot_text, shown_by, reason_line, reason_status};

use crate::refusal::{DENIED, UNDONE};
use command_lines::Output;
use effect_scan::Node;
use meta_model::Meta;
use rank_check::Spot;
use rank_make::Why;
use std::io::Write;

/// The exit status after a reason.
pub fn status_of_reason(why: &Why) -> u8
    ensures { result ≡ reason_status why.now }
{
    match why {
        Why::Memory => UNDONE,
        Why::Wire(_) | Why::BodyType(_) | Why::Cycle(_) | Why::DestroyPath(_) | Why::TooHigh(_) =>
            DENIED,
    }
}

/// Adds the line of a reason.
pub fn put_reason<W: Write>(output: &mut Output<'_, W>, meta: &Meta, why: &Why)
    ensures { Puts W.contents output.old output.new (reason_line meta.now why.now) }
{
    match why {
        Why::Wire(place) => output.numbered(b"no wire ", *place as u128 + 1),
        Why::BodyType(spot) => put_untyped(output, meta, *spot),
        Why::Cycle(nodes) => put_nodes(output, b"cycle", meta, nodes.as_slice()),
        Why::DestroyPath(nodes) => put_nodes(output, b"destroy", meta, nodes.as_slice()),
        Why::TooHigh(nodes) => put_nodes(output, b"high", meta, nodes.as_slice()),
        Why::Memory => output.put(b"memory\n"),
    }
}

/// Adds the line that tells what isn't typed.
fn put_untyped<W: Write>(output: &mut Output<'_, W>, meta: &Meta, spot: Spot)
    ensures { Puts W.contents output.old output.new (codes "no type " ++ spot_text meta.now spot ++ codes "\n") }
{
    output.put(b"no type ");
    put_spot(output, meta, spot);
    output.put(b"\n");
}

/// Adds what isn't typed: a node, or a binding by its name.
fn put_spot<W: Write>(output: &mut Output<'_, W>, meta: &Meta, spot: Spot)
    ensures { Puts W.contents output.old output.new (spot_text meta.now spot) }
{
    match spot {
        Spot::Node(node) => output.node_of(meta, node),
        Spot::Binding(number) => put_binding(output, meta, number),
    }
}

/// Adds `binding N`.
fn put_binding<W: Write>(output: &mut Output<'_, W>, meta: &Meta, number: usize)
    ensures { Puts W.contents output.old output.new (spot_text meta.now (Binding number)) }
{
    output.put(b"binding ");
    if let Some(site) = meta.site_at(number) {
        output.name(&site.name);
    }
}

/// Adds the line of what was found, with the nodes that show it.
fn put_nodes<W: Write>(output: &mut Output<'_, W>, word: &[u8], meta: &Meta, nodes: &[Node])
    ensures { Puts W.contents output.old output.new (shown_by word.now meta.now nodes.now) }
{
    output.put(b"no ");
    output.put(word);
    output.nodes(meta, nodes);
    output.put(b"\n");
}
