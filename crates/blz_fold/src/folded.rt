//! What is folded from stacks.
ghost use Rattle.std.specs.Prelude.{◌≡◌, ◌≤◌, IfOk, length, map, option_copied, slice_get, take};
ghost use Rattle.blz_fold.specs.FoldedViews.{line_bytes, node_bytes};

use blz_error::Str;
use std::alloc::{AllocError, Global};
use std::marker::Model;
use std::rc::Rc;

/// Names, the outermost first. Lists that begin alike share their texts.
#[derive(Drop)]
pub struct Names {
    all: Rc<Vec<Str>>,
    len: usize,
}

impl Model for Names {
    ghost use Rattle.std.specs.Prelude.{List, ℕ, ◌≤◌, length, take};

    ghost Value = { List (List ℕ) };

    ghost view = { λ n. take n.len n.all.value.items };

    ghost invariant = { λ n. n.len ≤ length n.all.value.items };
}

impl Names {
    /// The names of a vector.
    pub(crate) fn from_vec(alloc: Global, names: Vec<Str>) -> Result<Names, AllocError>
        ensures { IfOk result (λ n. n ≡ names.items) }
    {
        let len = names.len();
        Ok(Names {
            all: Rc::new(alloc, names)?,
            len,
        })
    }

    /// The first of them; shares their texts.
    pub(crate) fn front(&self, len: usize) -> Result<Names, AllocError>
        requires { len ≤ length self.now }
        ensures { IfOk result (λ names. names ≡ take len self.now) }
    {
        Ok(Names {
            all: self.all.clone()?,
            len,
        })
    }

    /// How many they are.
    pub fn len(&self) -> usize
        ensures { result ≡ length self.now }
    {
        self.len
    }

    /// The name at an index, none from the length on.
    pub fn get(&self, idx: usize) -> Option<&Str>
        ensures { option_copied result ≡ slice_get self.now idx }
    {
        self.as_slice().get(idx)
    }

    /// The names as a slice.
    pub fn as_slice(&self) -> &[Str]
        ensures { result.now ≡ self.now }
    {
        &self.all.as_slice()[..self.len]
    }
}

/// A stack of names, and how often it was met.
#[derive(Drop)]
pub struct FoldLine {
    /// The names, the outermost first.
    pub names: Names,
    /// How often it was met.
    pub count: u64,
}

/// Names with which stacks begin, and how often.
#[derive(Drop)]
pub struct FoldNode {
    /// The names, the outermost first.
    pub names: Names,
    /// How often a stack was met that begins with them.
    pub count: u64,
    /// How often a stack was met that has no further names.
    pub own: u64,
}

/// The distinct stacks of names, and all that they begin with.
#[derive(Drop)]
pub struct Folded {
    lines: Vec<FoldLine>,
    nodes: Vec<FoldNode>,
}

impl Model for Folded {
    ghost use Rattle.std.specs.Prelude.{map};
    ghost use Rattle.blz_fold.specs.Naming.{FoldedNames};
    ghost use Rattle.blz_fold.specs.FoldedViews.{line_bytes, node_bytes};

    ghost Value = { FoldedNames };

    ghost view = { λ f. record { lines = map line_bytes f.lines.items; nodes = map node_bytes f.nodes.items } };
}

impl Folded {
    pub(crate) fn new(lines: Vec<FoldLine>, nodes: Vec<FoldNode>) -> Folded
        ensures lines { result.lines ≡ map line_bytes lines.items }
        ensures nodes { result.nodes ≡ map node_bytes nodes.items }
    {
        Folded { lines, nodes }
    }

    /// The distinct stacks of names, in the order of the first stack that has them, each with the sum of the counts.
    pub fn lines(&self) -> &[FoldLine]
        ensures { map line_bytes result.now ≡ self.now.lines }
    {
        self.lines.as_slice()
    }

    /// The distinct names with which stacks begin, in the order of stack, then length. A node's count is the sum over the
    /// stacks that begin with its names, its own count that over the stacks that equal them.
    pub fn nodes(&self) -> &[FoldNode]
        ensures { map node_bytes result.now ≡ self.now.nodes }
    {
        self.nodes.as_slice()
    }
}
