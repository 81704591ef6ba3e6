//! Keys with more keys among them.
ghost use Rattle.std.specs.Prelude.{◌≡◌, ◌++◌, IfOk, OnOk};
ghost use Rattle.rep_lists.specs.Rising.{IsRising};
ghost use Rattle.rep_values.specs.Order.{key_cmp};
ghost use Rattle.change_logs.specs.Noting.{with_keys};

use rep_lists::{Items, NoMemory};
use rep_values::{Key, compare_keys};
use std::alloc::Global;
use std::cmp::Ordering;

/// Adds keys behind the others.
fn push_each(keys: &mut Items<Key>, more: &[Key]) -> Result<(), NoMemory>
    ensures { OnOk result (keys.new ≡ keys.old ++ more.now) }
{
    for key in more {
        keys.push(*key)?;
    }
    Ok(())
}

/// Keys with more keys, which rise, among them. It goes through both lists once.
pub(crate) fn with_keys(alloc: Global, more: &[Key], keys: &[Key]) -> Result<Items<Key>, NoMemory>
    requires { IsRising key_cmp more.now }
    ensures { IfOk result (λ all. all ≡ with_keys more.now keys.now) }
{
    let mut all = Items::new(alloc);
    let mut place = 0;
    let mut next = 0;
    while next < more.len() && place < keys.len() {
        let kept = keys[place];
        let coming = more[next];
        match compare_keys(&kept, &coming) {
            Ordering::Less => {
                all.push(kept)?;
                place += 1;
            }
            Ordering::Equal => {
                all.push(coming)?;
                place += 1;
                next += 1;
            }
            Ordering::Greater => {
                all.push(coming)?;
                next += 1;
            }
        }
    }
    push_each(&mut all, &more[next..])?;
    push_each(&mut all, &keys[place..])?;
    Ok(all)
}
