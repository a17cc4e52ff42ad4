//! The beginnings of lines.
ghost use Rattle.std.specs.Prelude.{◌≡◌, ◌<◌, ◌≤◌, ◌+◌, ◌^◌, ◌∷◌, ◌++◌, [], if◌then◌else◌, IfOk, IfSome, OnOk, option_copied, Some, length, nat_eq, slice_get, take};
ghost use Rattle.std.specs.List.{AllByRecursion};
ghost use Rattle.blz_fold.specs.Adding.{node_added};
ghost use Rattle.blz_fold.specs.Counted.{nodes_of, total};
ghost use Rattle.blz_fold.specs.Trees.{FitsWith, IsWithin, NodeFits, all_names, counted, names_at, node_at};

use crate::lines::Lines;
use indexmap::IndexMap;
use std::alloc::{AllocError, Global};
use std::marker::Model;

/// The first numbers of a line, and how often lines begin with them.
#[derive(Clone, Copy)]
pub(crate) struct Beginning {
    /// The index of the line.
    pub line: usize,
    /// How many numbers.
    pub len: usize,
    /// The sum over the lines that begin with them.
    pub count: u64,
    /// The sum over the lines that equal them.
    pub own: u64,
}

/// The distinct beginnings of lines, in the order of line, then length. Place 0 is the root, and place i + 1 the node at
/// index i; a node is found by the place of the node that is one number shorter, and by its last number.
#[derive(Drop)]
pub(crate) struct Tree<'l> {
    lines: &'l Lines,
    nodes: IndexMap<(usize, usize), Beginning>,
}

impl<'l> Model for Tree<'l> {
    ghost use Rattle.blz_fold.specs.TreeViews.{NodesOfLines};

    ghost Value = { NodesOfLines };

    ghost use Rattle.blz_fold.specs.Trees.{IsTree, nodes_in};

    ghost view = { λ t. record { lines = t.lines.now; nodes = nodes_in t.lines.now t.nodes.entries } };

    ghost invariant = { λ t. IsTree t.lines.now t.nodes.entries };
}

impl<'l> Tree<'l> {
    /// The beginnings of all lines.
    pub(crate) fn of(alloc: Global, lines: &'l Lines) -> Result<Tree<'l>, AllocError>
        requires { total lines.now < 2 ^ 64 }
        ensures lines { IfOk result (λ t. t.lines ≡ lines.now) }
        ensures nodes { IfOk result (λ t. t.nodes ≡ nodes_of nat_eq lines.now) }
    {
        let mut tree = Tree {
            lines,
            nodes: IndexMap::new(alloc),
        };
        for i in 0..lines.len() {
            tree.add(i)?;
        }
        Ok(tree)
    }

    // Counts the beginnings of one line more.
    fn add(&mut self, line: usize) -> Result<(), AllocError>
        requires line { line < length self.old.lines }
        requires done { self.old.nodes ≡ nodes_of nat_eq (take line self.old.lines) }
        requires small { total self.old.lines < 2 ^ 64 }
        ensures lines { self.new.lines ≡ self.old.lines }
        ensures nodes { OnOk result (self.new.nodes ≡ nodes_of nat_eq (take (line + 1) self.old.lines)) }
    {
        let (numbers, count) = self.lines.at(line);
        let mut parent = 0;
        for (k, number) in numbers.iter().enumerate() {
            let node = Beginning {
                line,
                len: k + 1,
                count,
                own: own_count(k + 1, numbers.len(), count),
            };
            parent = self.step(parent, *number, node)?;
        }
        Ok(())
    }

    // Counts a node below a place once more, and answers its place.
    fn step(&mut self, parent: usize, number: usize, node: Beginning) -> Result<usize, AllocError>
        requires parent { parent ≤ length self.old.nodes }
        requires names { (node_at self.old.lines node).names ≡ names_at (all_names self.old.nodes) parent ++ number ∷ [] }
        requires within { IsWithin self.old.lines node }
        requires fits { AllByRecursion NodeFits (node_added nat_eq self.old.nodes (node_at self.old.lines node)) }
        ensures lines { self.new.lines ≡ self.old.lines }
        ensures nodes { OnOk result (self.new.nodes ≡ node_added nat_eq self.old.nodes (node_at self.old.lines node)) }
        ensures within { IfOk result (λ place. place ≤ length self.new.nodes) }
        ensures place { IfOk result (λ place. names_at (all_names self.new.nodes) place ≡ (node_at self.old.lines node).names) }
    {
        let key = (parent, number);
        let counted = counted(self.nodes.get(&key), node);
        let (index, _) = self.nodes.insert_full(key, counted)?;
        // no map has more than 2^63 entries
        let _len = self.nodes.len();
        Ok(index + 1)
    }

    /// The numbers of a node.
    pub(crate) fn names_of(&self, node: Beginning) -> &[usize]
        requires { IsWithin self.now.lines node }
        ensures { result.now ≡ (node_at self.now.lines node).names }
    {
        let (numbers, _) = self.lines.at(node.line);
        &numbers[..node.len]
    }

    /// How many nodes there are.
    pub(crate) fn len(&self) -> usize
        ensures { result ≡ length self.now.nodes }
    {
        self.nodes.len()
    }

    /// The node at an index.
    pub(crate) fn at(&self, idx: usize) -> Beginning
        requires { idx < length self.now.nodes }
        ensures node { slice_get self.now.nodes idx ≡ Some (node_at self.now.lines result) }
        ensures within { IsWithin self.now.lines result }
    {
        match self.nodes.get_index(idx) {
            Some((_, node)) => *node,
            None => unreachable!(),
        }
    }
}

// What a line adds to the own count of its first numbers: its count where they are all.
fn own_count(len: usize, line_len: usize, count: u64) -> u64
    ensures { result ≡ (if nat_eq len line_len then count else 0) }
{
    if len == line_len { count } else { 0 }
}

// A node that may have been counted before, counted once more.
fn counted(before: Option<&Beginning>, node: Beginning) -> Beginning
    requires { IfSome before (λ b. FitsWith b.now node) }
    ensures { result ≡ counted (option_copied before.entry) node }
{
    match before {
        Some(before) => Beginning {
            count: before.count + node.count,
            own: before.own + node.own,
            ..*before
        },
        None => node,
    }
}
