//! The printed text of lines and nodes, made whole.
ghost use Rattle.std.specs.Prelude.{◌≡◌, ◌++◌, IfOk, OnOk, map};
ghost use Rattle.std.specs.List.{flat_map};
ghost use Rattle.blz_fold.specs.FoldTexts.{line_text, names_text, node_text, separator};
ghost use Rattle.blz_fold.specs.Numbered.{name_at, spelled, spelled_node};

use crate::lines::Lines;
use crate::name_table::NameTable;
use crate::room::{lines_room, nodes_room};
use crate::tree::{Beginning, Tree};
use blz_program::push_decimal;
use std::alloc::{AllocError, Global};

/// A line for each of the lines.
pub(crate) fn print_lines(
    alloc: Global,
    names: &NameTable<'_>,
    lines: &Lines,
) -> Result<Vec<u8>, AllocError>
    ensures { IfOk result (λ v. v.items ≡ flat_map line_text (map (spelled names.now) lines.now)) }
{
    let mut out = Vec::with_capacity(alloc, lines_room(names, lines))?;
    for i in 0..lines.len() {
        let (numbers, count) = lines.at(i);
        push_line(&mut out, names, numbers, count)?;
    }
    Ok(out)
}

/// A line for each of the nodes.
pub(crate) fn print_nodes(
    alloc: Global,
    names: &NameTable<'_>,
    tree: &Tree<'_>,
) -> Result<Vec<u8>, AllocError>
    ensures { IfOk result (λ v. v.items ≡ flat_map node_text (map (spelled_node names.now) tree.now.nodes)) }
{
    let mut out = Vec::with_capacity(alloc, nodes_room(names, tree))?;
    for i in 0..tree.len() {
        let node = tree.at(i);
        push_node(&mut out, names, tree.names_of(node), node)?;
    }
    Ok(out)
}

fn push_line(
    out: &mut Vec<u8>,
    names: &NameTable<'_>,
    numbers: &[usize],
    count: u64,
) -> Result<(), AllocError>
    ensures { OnOk result (out.new.items ≡ out.old.items ++ line_text (spelled names.now (record { names = numbers.now; count = count }))) }
{
    push_names(out, names, numbers)?;
    out.push(b' ')?;
    push_decimal(out, count)?;
    out.push(b'\n')?;
    Ok(())
}

fn push_node(
    out: &mut Vec<u8>,
    names: &NameTable<'_>,
    numbers: &[usize],
    node: Beginning,
) -> Result<(), AllocError>
    ensures { OnOk result (out.new.items ≡ out.old.items ++ node_text (spelled_node names.now (record { names = numbers.now; count = node.count; own = node.own }))) }
{
    push_decimal(out, node.count)?;
    out.push(b' ')?;
    push_decimal(out, node.own)?;
    out.push(b' ')?;
    push_names(out, names, numbers)?;
    out.push(b'\n')?;
    Ok(())
}

// Names joined by `;`.
fn push_names(out: &mut Vec<u8>, names: &NameTable<'_>, numbers: &[usize]) -> Result<(), AllocError>
    ensures { OnOk result (out.new.items ≡ out.old.items ++ names_text (map (name_at names.now) numbers.now)) }
{
    for (i, number) in numbers.iter().enumerate() {
        push_separator(out, i)?;
        push_name(out, names, *number)?;
    }
    Ok(())
}

// What stands before the name at an index.
fn push_separator(out: &mut Vec<u8>, index: usize) -> Result<(), AllocError>
    ensures { OnOk result (out.new.items ≡ out.old.items ++ separator index) }
{
    if index > 0 {
        out.push(b';')?;
    }
    Ok(())
}

fn push_name(out: &mut Vec<u8>, names: &NameTable<'_>, number: usize) -> Result<(), AllocError>
    ensures { OnOk result (out.new.items ≡ out.old.items ++ name_at names.now number) }
{
    match names.get(number) {
        Some(name) => out.extend_from_slice(name.as_bytes()),
        None => Ok(()),
    }
}
