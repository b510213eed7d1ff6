//! Writes settling certificates.

ghost use Rattle.std.specs.Prelude.{◌≡◌, ◌++◌, codes, decimal, IfOk, OnOk};
ghost use Rattle.std.specs.List.{flat_map};
ghost use Rattle.certificate_lang.specs.Texts.{node_text, item_text, listed_text};
ghost use Rattle.settling_texts.specs.Texts.{depth_line, node_line, listed_node, set_line, settling_text};

use basic_types::Name;
use certificate_lang::{MemberName, NodeName, SetItem};
use itoa::Buffer;
use settling::{SettlingCertificate, SettlingLine, SettlingSet};
use std::alloc::{AllocError, Global};

/// The certificate's text: `settling 1`, `bound B S`, the lines of its nodes and then those of its sets, with one blank between
/// the parts of a line, none in a node but the one behind `const`, and no other line. The error is that memory was refused.
pub fn settling_text(
    alloc: Global,
    certificate: &SettlingCertificate,
) -> Result<Vec<u8>, AllocError>
    ensures { IfOk result (λ text. text.items ≡ settling_text certificate.now) }
{
    let mut text = Vec::from_slice(alloc, b"settling 1\n")?;
    push_depth(certificate.bound, certificate.step, &mut text)?;
    push_lines(alloc, certificate.lines.as_slice(), &mut text)?;
    push_sets(alloc, certificate.sets.as_slice(), &mut text)?;
    Ok(text)
}

/// Adds `bound B S` at the end.
fn push_depth(bound: u32, step: u32, text: &mut Vec<u8>) -> Result<(), AllocError>
    ensures { OnOk result (text.new.items ≡ text.old.items ++ depth_line bound step) }
{
    text.extend_from_slice(b"bound ")?;
    push_number(bound, text)?;
    text.push(b' ')?;
    push_number(step, text)?;
    text.push(b'\n')?;
    Ok(())
}

/// Adds the lines of nodes at the end.
fn push_lines(alloc: Global, lines: &[SettlingLine], text: &mut Vec<u8>) -> Result<(), AllocError>
    ensures { OnOk result (text.new.items ≡ text.old.items ++ flat_map node_line lines.now) }
{
    let mut left = lines;
    while let Some((line, more)) = left.split_first() {
        push_line(alloc, line, text)?;
        left = more;
    }
    Ok(())
}

/// Adds the lines of sets at the end.
fn push_sets(alloc: Global, sets: &[SettlingSet], text: &mut Vec<u8>) -> Result<(), AllocError>
    ensures { OnOk result (text.new.items ≡ text.old.items ++ flat_map set_line sets.now) }
{
    let mut left = sets;
    while let Some((set, more)) = left.split_first() {
        push_set(alloc, set, text)?;
        left = more;
    }
    Ok(())
}

/// Adds the line of a node at the end.
fn push_line(alloc: Global, line: &SettlingLine, text: &mut Vec<u8>) -> Result<(), AllocError>
    ensures { OnOk result (text.new.items ≡ text.old.items ++ node_line line.now) }
{
    push_node(alloc, &line.node, text)?;
    push_numbers(line.rank, line.step, text)?;
    push_items(line.destroys.as_slice(), text)?;
    text.push(b'\n')?;
    Ok(())
}

/// Adds the line of a set at the end.
fn push_set(alloc: Global, set: &SettlingSet, text: &mut Vec<u8>) -> Result<(), AllocError>
    ensures { OnOk result (text.new.items ≡ text.old.items ++ set_line set.now) }
{
    text.extend_from_slice(b"round ")?;
    push_number(set.round, text)?;
    push_members(alloc, set.members.as_slice(), text)?;
    text.push(b'\n')?;
    Ok(())
}

/// Adds nodes at the end, a blank in front of each.
fn push_members(alloc: Global, members: &[NodeName], text: &mut Vec<u8>) -> Result<(), AllocError>
    ensures { OnOk result (text.new.items ≡ text.old.items ++ flat_map listed_node members.now) }
{
    let mut left = members;
    while let Some((node, more)) = left.split_first() {
        text.push(b' ')?;
        push_node(alloc, node, text)?;
        left = more;
    }
    Ok(())
}

/// Adds the items of a destroy set at the end, a blank in front of each.
fn push_items(items: &[SetItem], text: &mut Vec<u8>) -> Result<(), AllocError>
    ensures { OnOk result (text.new.items ≡ text.old.items ++ flat_map listed_text items.now) }
{
    let mut left = items;
    while let Some((item, more)) = left.split_first() {
        text.push(b' ')?;
        push_item(item, text)?;
        left = more;
    }
    Ok(())
}

/// Adds an item of a destroy set at the end.
fn push_item(item: &SetItem, text: &mut Vec<u8>) -> Result<(), AllocError>
    ensures { OnOk result (text.new.items ≡ text.old.items ++ item_text item.now) }
{
    match item {
        SetItem::Class(name) => Ok(text.extend_from_slice(name.bytes())?),
        SetItem::Closure(name) => Ok(push_tilde(name, text)?),
    }
}

/// Adds `~C` at the end.
fn push_tilde(class: &Name, text: &mut Vec<u8>) -> Result<(), AllocError>
    ensures { OnOk result (text.new.items ≡ text.old.items ++ (codes "~" ++ class.now)) }
{
    text.push(b'~')?;
    text.extend_from_slice(class.bytes())?;
    Ok(())
}

/// Adds a node at the end.
fn push_node(alloc: Global, node: &NodeName, text: &mut Vec<u8>) -> Result<(), AllocError>
    ensures { OnOk result (text.new.items ≡ text.old.items ++ node_text node.now) }
{
    match &node.member {
        MemberName::Method(sig) => {
            let signature = sig.text(alloc)?;
            Ok(push_member(&node.class, signature.as_slice(), text)?)
        }
        MemberName::Property(name) => Ok(push_member(&node.class, name.bytes(), text)?),
        MemberName::Destruction => Ok(push_tilde(&node.class, text)?),
    }
}

/// Adds `C.` and what stands behind it at the end.
fn push_member(class: &Name, member: &[u8], text: &mut Vec<u8>) -> Result<(), AllocError>
    ensures { OnOk result (text.new.items ≡ text.old.items ++ (class.now ++ codes "." ++ member.now)) }
{
    text.extend_from_slice(class.bytes())?;
    text.push(b'.')?;
    text.extend_from_slice(member)?;
    Ok(())
}

/// Adds two numbers at the end, a blank in front of each.
fn push_numbers(first: u32, second: u32, text: &mut Vec<u8>) -> Result<(), AllocError>
    ensures { OnOk result (text.new.items ≡ text.old.items ++ (codes " " ++ (decimal first ++ (codes " " ++ decimal second)))) }
{
    text.push(b' ')?;
    push_number(first, text)?;
    text.push(b' ')?;
    push_number(second, text)?;
    Ok(())
}

/// Adds a number at the end.
fn push_number(number: u32, text: &mut Vec<u8>) -> Result<(), AllocError>
    ensures { OnOk result (text.new.items ≡ text.old.items ++ decimal number) }
{
    let mut buffer = Buffer::new();
    text.extend_from_slice(buffer.format(number).as_bytes())?;
    Ok(())
}
