//! Roots and their sides.
ghost use Rattle.std.specs.Prelude.{◌≡◌, ◌+◌, ◌^◌, ◌<◌, ◌≤◌, ◌∷◌, ◌++◌, length, insert};
ghost use Rattle.ordered_keys.specs.Trees.{entries, AreSummed};

use crate::Noted;
use crate::tree::{Fork, Sum, Tree};
use std::mem;

/// The root with these sides.
pub(crate) fn joined<E: Noted>(mut root: Box<Fork<E>>, left: Tree<E>, right: Tree<E>) -> Tree<E>
    requires left { AreSummed E.moment left }
    requires right { AreSummed E.moment right }
    requires fits { length (entries left) + length (entries right) + 1 < 2 ^ 64 }
    ensures entries { entries result ≡ entries left ++ root.value.entry ∷ entries right }
    ensures summed { AreSummed E.moment result }
{
    let (before, own, behind) = (left.sum(), root.entry.moment(), right.sum());
    root.sum = Sum {
        len: before.len + 1 + behind.len,
        first: before.first.min(own).min(behind.first),
        last: before.last.max(own).max(behind.last),
    };
    root.left = left;
    root.right = right;
    Tree::Fork(root)
}

/// Two roots, what is between them, and what is on both sides. What is between them is halved, its own root on top.
fn halved<E: Noted>(
    first: Box<Fork<E>>,
    left: Tree<E>,
    middle: Tree<E>,
    last: Box<Fork<E>>,
    right: Tree<E>,
) -> Tree<E>
    requires left { AreSummed E.moment left }
    requires middle { AreSummed E.moment middle }
    requires right { AreSummed E.moment right }
    requires fits { length (entries left) + length (entries middle) + length (entries right) + 2 < 2 ^ 64 }
    ensures entries { entries result ≡ entries left ++ first.value.entry ∷ (entries middle ++ last.value.entry ∷ entries right) }
    ensures summed { AreSummed E.moment result }
{
    match middle {
        Tree::Leaf => joined(first, left, joined(last, Tree::Leaf, right)),
        Tree::Fork(mut top) => {
            let front = mem::replace(&mut top.left, Tree::Leaf);
            let back = mem::replace(&mut top.right, Tree::Leaf);
            joined(top, joined(first, left, front), joined(last, back, right))
        }
    }
}

/// The root with these sides, of which the right one has too many entries: its root comes on top.
fn turned_left<E: Noted>(root: Box<Fork<E>>, left: Tree<E>, right: Tree<E>) -> Tree<E>
    requires left { AreSummed E.moment left }
    requires right { AreSummed E.moment right }
    requires fits { length (entries left) + length (entries right) + 1 < 2 ^ 64 }
    ensures entries { entries result ≡ entries left ++ root.value.entry ∷ entries right }
    ensures summed { AreSummed E.moment result }
{
    match right {
        Tree::Leaf => joined(root, left, Tree::Leaf),
        Tree::Fork(mut top) => {
            let middle = mem::replace(&mut top.left, Tree::Leaf);
            let back = mem::replace(&mut top.right, Tree::Leaf);
            let (near, far) = (middle.sum().len, back.sum().len);
            if near.saturating_sub(far) > far {
                halved(root, left, middle, top, back)
            } else {
                joined(top, joined(root, left, middle), back)
            }
        }
    }
}

/// The root with these sides, of which the left one has too many entries: its root comes on top.
fn turned_right<E: Noted>(root: Box<Fork<E>>, left: Tree<E>, right: Tree<E>) -> Tree<E>
    requires left { AreSummed E.moment left }
    requires right { AreSummed E.moment right }
    requires fits { length (entries left) + length (entries right) + 1 < 2 ^ 64 }
    ensures entries { entries result ≡ entries left ++ root.value.entry ∷ entries right }
    ensures summed { AreSummed E.moment result }
{
    match left {
        Tree::Leaf => joined(root, Tree::Leaf, right),
        Tree::Fork(mut top) => {
            let front = mem::replace(&mut top.left, Tree::Leaf);
            let middle = mem::replace(&mut top.right, Tree::Leaf);
            let (far, near) = (front.sum().len, middle.sum().len);
            if near.saturating_sub(far) > far {
                halved(top, front, middle, root, right)
            } else {
                joined(top, front, joined(root, middle, right))
            }
        }
    }
}

/// The root with these sides. Where one of them, counted with its end, is more than three times the other, a turn evens them.
pub(crate) fn balanced<E: Noted>(root: Box<Fork<E>>, left: Tree<E>, right: Tree<E>) -> Tree<E>
    requires left { AreSummed E.moment left }
    requires right { AreSummed E.moment right }
    requires fits { length (entries left) + length (entries right) + 1 < 2 ^ 64 }
    ensures entries { entries result ≡ entries left ++ root.value.entry ∷ entries right }
    ensures summed { AreSummed E.moment result }
{
    let (before, behind) = (left.sum().len, right.sum().len);
    if behind / 3 > before {
        turned_left(root, left, right)
    } else if before / 3 > behind {
        turned_right(root, left, right)
    } else {
        joined(root, left, right)
    }
}

/// Two trees, one behind the other. The root of the one with more entries comes on top.
pub(crate) fn merged<E: Noted>(front: Tree<E>, back: Tree<E>) -> Tree<E>
    requires front { AreSummed E.moment front }
    requires back { AreSummed E.moment back }
    requires fits { length (entries front) + length (entries back) < 2 ^ 64 }
    ensures entries { entries result ≡ entries front ++ entries back }
    ensures summed { AreSummed E.moment result }
{
    match front {
        Tree::Leaf => back,
        Tree::Fork(mut first) => match back {
            Tree::Leaf => Tree::Fork(first),
            Tree::Fork(mut last) => {
                if first.sum.len < last.sum.len {
                    let left = mem::replace(&mut last.left, Tree::Leaf);
                    let right = mem::replace(&mut last.right, Tree::Leaf);
                    balanced(last, merged(Tree::Fork(first), left), right)
                } else {
                    let left = mem::replace(&mut first.left, Tree::Leaf);
                    let right = mem::replace(&mut first.right, Tree::Leaf);
                    balanced(first, left, merged(right, Tree::Fork(last)))
                }
            }
        },
    }
}

/// A tree with one more entry at a place, that of a root of its own.
pub(crate) fn inserted<E: Noted>(tree: Tree<E>, place: usize, one: Box<Fork<E>>) -> Tree<E>
    requires summed { AreSummed E.moment tree }
    requires place { place ≤ length (entries tree) }
    requires fits { length (entries tree) + 1 < 2 ^ 64 }
    ensures entries { entries result ≡ insert (entries tree) place one.value.entry }
    ensures summed { AreSummed E.moment result }
{
    match tree {
        Tree::Leaf => joined(one, Tree::Leaf, Tree::Leaf),
        Tree::Fork(mut root) => {
            let left = mem::replace(&mut root.left, Tree::Leaf);
            let right = mem::replace(&mut root.right, Tree::Leaf);
            let before = left.sum().len as usize;
            if place <= before {
                balanced(root, inserted(left, place, one), right)
            } else {
                balanced(root, left, inserted(right, place - before - 1, one))
            }
        }
    }
}
