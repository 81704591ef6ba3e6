//! The entries of a list as a tree.
ghost use Rattle.ordered_keys.specs.Trees.{entries, IsSumOf, AreSummed};

use crate::Noted;

/// The entries of a list: those on the left of the root, the root's own, and those on the right.
#[cycle(tree)]
#[derive(Drop)]
pub(crate) enum Tree<E> {
    Leaf,
    Fork(Box<Fork<E>>),
}

/// A root, which has an entry and what is on both sides.
#[cycle(tree)]
#[derive(Drop)]
pub(crate) struct Fork<E> {
    pub(crate) left: Tree<E>,
    pub(crate) right: Tree<E>,
    pub(crate) entry: E,
    pub(crate) sum: Sum,
}

/// How many entries there are, and bounds of their moments.
#[derive(Clone, Copy)]
pub(crate) struct Sum {
    pub(crate) len: u64,
    pub(crate) first: u64,
    pub(crate) last: u64,
}

impl<E: Noted> Tree<E> {
    /// What it has in all.
    pub(crate) fn sum(&self) -> Sum
        requires { AreSummed E.moment self.now }
        ensures { IsSumOf E.moment result (entries self.now) }
    {
        match self {
            Tree::Leaf => Sum {
                len: 0,
                first: u64::MAX,
                last: 0,
            },
            Tree::Fork(root) => root.sum,
        }
    }
}
