//! What stands in a tree.
ghost use Rattle.std.specs.Prelude.{◌≡◌, ◌+◌, ◌^◌, ◌<◌, ◌≤◌, ◌++◌, length, map, slice_get, option_copied, IfOk, IfErr, OnOk};
ghost use Rattle.rep_lists.specs.Rising.{IsRising, IsThere, IsGap};
ghost use Rattle.ordered_keys.specs.Trees.{entries, AreSummed};
ghost use Rattle.ordered_keys.specs.Keys.{by_key, beside_key, keys_above, place_behind};

use crate::Noted;
use crate::tree::Tree;
use rep_lists::{Items, NoMemory};
use rep_values::{Key, compare_keys};
use std::cmp::Ordering;

/// The entry at a place, if there is one.
pub(crate) fn entry_at<E: Noted>(tree: &Tree<E>, place: usize) -> Option<&E>
    requires summed { AreSummed E.moment tree.now }
    ensures { option_copied result ≡ slice_get (entries tree.now) place }
{
    match tree {
        Tree::Leaf => None,
        Tree::Fork(root) => {
            let before = root.left.sum().len as usize;
            if place < before {
                entry_at(&root.left, place)
            } else if place == before {
                Some(&root.entry)
            } else {
                entry_at(&root.right, place - before - 1)
            }
        }
    }
}

/// A place that was found or not, as it is behind so many entries.
fn behind(place: Result<usize, usize>, before: usize) -> Result<usize, usize>
    requires found { IfOk place (λ p. before + p < 2 ^ 64) }
    requires absent { IfErr place (λ p. before + p < 2 ^ 64) }
    ensures { result ≡ place_behind before place }
{
    match place {
        Ok(found) => Ok(before + found),
        Err(absent) => Err(before + absent),
    }
}

/// The place of a key among rising ones, or else the place where it would stand.
pub(crate) fn search<E: Noted>(tree: &Tree<E>, key: &Key) -> Result<usize, usize>
    requires summed { AreSummed E.moment tree.now }
    requires fits { length (entries tree.now) < 2 ^ 64 }
    ensures in_range { IfOk result (λ p. p < length (entries tree.now)) }
    ensures within { IfErr result (λ p. p ≤ length (entries tree.now)) }
    ensures found { IsRising (by_key E.key) (entries tree.now) → IfOk result (IsThere (beside_key E.key key.now) (entries tree.now)) }
    ensures absent { IsRising (by_key E.key) (entries tree.now) → IfErr result (IsGap (beside_key E.key key.now) (entries tree.now)) }
{
    match tree {
        Tree::Leaf => Err(0),
        Tree::Fork(root) => match compare_keys(root.entry.key(), key) {
            Ordering::Less => behind(search(&root.right, key), root.left.sum().len as usize + 1),
            Ordering::Equal => Ok(root.left.sum().len as usize),
            Ordering::Greater => search(&root.left, key),
        },
    }
}

/// Adds all keys behind others, in their order.
pub(crate) fn push_keys<E: Noted>(tree: &Tree<E>, keys: &mut Items<Key>) -> Result<(), NoMemory>
    ensures { OnOk result (keys.new ≡ keys.old ++ map E.key (entries tree.now)) }
{
    match tree {
        Tree::Leaf => Ok(()),
        Tree::Fork(root) => {
            push_keys(&root.left, keys)?;
            keys.push(*root.entry.key())?;
            push_keys(&root.right, keys)
        }
    }
}

/// Adds the keys with a moment above a mark behind others, in their order.
pub(crate) fn push_above<E: Noted>(
    tree: &Tree<E>,
    mark: u64,
    keys: &mut Items<Key>,
) -> Result<(), NoMemory>
    requires { AreSummed E.moment tree.now }
    ensures { OnOk result (keys.new ≡ keys.old ++ keys_above E.key E.moment mark (entries tree.now)) }
{
    match tree {
        Tree::Leaf => Ok(()),
        Tree::Fork(root) => {
            if root.sum.last <= mark {
                return Ok(());
            }
            push_above(&root.left, mark, keys)?;
            if mark < root.entry.moment() {
                keys.push(*root.entry.key())?;
            }
            push_above(&root.right, mark, keys)
        }
    }
}
