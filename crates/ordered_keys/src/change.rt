//! Entries that take the place of others, and entries that go.
ghost use Rattle.std.specs.Prelude.{◌≡◌, ◌+◌, ◌^◌, ◌<◌, ◌≤◌, length, set, vec_len, vec_capacity};
ghost use Rattle.ordered_keys.specs.Trees.{entries, AreSummed};
ghost use Rattle.ordered_keys.specs.Keys.{entries_above};

use crate::Noted;
use crate::join::{balanced, joined, merged};
use crate::tree::{Fork, Tree};
use std::mem;

/// A tree with another entry at a place.
pub(crate) fn changed<E: Noted>(tree: Tree<E>, place: usize, entry: E) -> Tree<E>
    requires summed { AreSummed E.moment tree }
    requires fits { length (entries tree) < 2 ^ 64 }
    ensures entries { entries result ≡ set (entries tree) place entry }
    ensures summed { AreSummed E.moment result }
{
    match tree {
        Tree::Leaf => Tree::Leaf,
        Tree::Fork(mut root) => {
            let left = mem::replace(&mut root.left, Tree::Leaf);
            let right = mem::replace(&mut root.right, Tree::Leaf);
            let before = left.sum().len as usize;
            if place < before {
                joined(root, changed(left, place, entry), right)
            } else if place == before {
                root.entry = entry;
                joined(root, left, right)
            } else {
                joined(root, left, changed(right, place - before - 1, entry))
            }
        }
    }
}

/// A tree without the entries that have a moment up to a mark. Their roots go among the unused ones.
pub(crate) fn purged<E: Noted>(tree: Tree<E>, mark: u64, unused: &mut Vec<Box<Fork<E>>>) -> Tree<E>
    requires summed { AreSummed E.moment tree }
    requires fits { length (entries tree) < 2 ^ 64 }
    requires room { vec_len unused.old + length (entries tree) ≤ vec_capacity unused.old }
    ensures entries { entries result ≡ entries_above E.moment mark (entries tree) }
    ensures summed { AreSummed E.moment result }
    ensures unused { vec_len unused.new + length (entries result) ≡ vec_len unused.old + length (entries tree) }
    ensures capacity { vec_capacity unused.new ≡ vec_capacity unused.old }
{
    match tree {
        Tree::Leaf => Tree::Leaf,
        Tree::Fork(mut root) => {
            if mark < root.sum.first {
                return Tree::Fork(root);
            }
            let left = mem::replace(&mut root.left, Tree::Leaf);
            let right = mem::replace(&mut root.right, Tree::Leaf);
            let left = purged(left, mark, unused);
            let right = purged(right, mark, unused);
            if mark < root.entry.moment() {
                return balanced(root, left, right);
            }
            unused.push_reserved(root);
            merged(left, right)
        }
    }
}
