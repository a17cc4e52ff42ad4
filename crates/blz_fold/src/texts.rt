//! Lines and nodes with the texts of their names.
ghost use Rattle.std.specs.Prelude.{◌≡◌, IfOk, map};
ghost use Rattle.blz_fold.specs.FoldedViews.{line_bytes, node_bytes};
ghost use Rattle.blz_fold.specs.Numbered.{name_at, spelled, spelled_node};

use crate::lines::Lines;
use crate::name_table::NameTable;
use crate::tree::Tree;
use crate::{FoldLine, FoldNode, Names};
use blz_error::Str;
use std::alloc::{AllocError, Global};

/// The lines with their names as texts.
pub(crate) fn fold_lines(
    alloc: Global,
    names: &NameTable<'_>,
    lines: &Lines,
) -> Result<Vec<FoldLine>, AllocError>
    ensures { IfOk result (λ v. map line_bytes v.items ≡ map (spelled names.now) lines.now) }
{
    let mut folded = Vec::with_capacity(alloc, lines.len())?;
    for i in 0..lines.len() {
        let (numbers, count) = lines.at(i);
        folded.push(FoldLine {
            names: Names::from_vec(alloc, texts_of(alloc, names, numbers)?)?,
            count,
        })?;
    }
    Ok(folded)
}

fn texts_of(alloc: Global, names: &NameTable<'_>, numbers: &[usize]) -> Result<Vec<Str>, AllocError>
    ensures { IfOk result (λ v. v.items ≡ map (name_at names.now) numbers.now) }
{
    let mut texts = Vec::with_capacity(alloc, numbers.len())?;
    for number in numbers {
        let name = names.get(*number).unwrap_or("");
        texts.push(Str::owned(String::from_str(alloc, name)?))?;
    }
    Ok(texts)
}

/// The nodes of a tree, which share the texts of the lines.
pub(crate) fn fold_nodes(
    alloc: Global,
    names: &NameTable<'_>,
    lines: &[FoldLine],
    tree: &Tree<'_>,
) -> Result<Vec<FoldNode>, AllocError>
    requires { map line_bytes lines.now ≡ map (spelled names.now) tree.now.lines }
    ensures { IfOk result (λ v. map node_bytes v.items ≡ map (spelled_node names.now) tree.now.nodes) }
{
    let mut nodes = Vec::with_capacity(alloc, tree.len())?;
    for i in 0..tree.len() {
        let node = tree.at(i);
        nodes.push(FoldNode {
            names: lines[node.line].names.front(node.len)?,
            count: node.count,
            own: node.own,
        })?;
    }
    Ok(nodes)
}
