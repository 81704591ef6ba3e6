//! Methods that decide every conflict, and those that leave sites apart.
ghost use Rattle.std.specs.Prelude.{◌≡◌};
ghost use Rattle.schema_advice.specs.Methods.{is_decisive, is_extreme, is_undecided, parts_sites, parting_method};

use rep_schema::{Group, Method};

/// Whether the method decides every conflict.
fn is_decisive(method: &Method) -> bool
    ensures { result ≡ is_decisive method.now }
{
    match method {
        Method::Overwrite | Method::Discard | Method::Additive | Method::Average => true,
        Method::Latest(_)
        | Method::Earliest(_)
        | Method::Maximum(_)
        | Method::Minimum(_)
        | Method::Priority { .. }
        | Method::SitePriority(_) => false,
    }
}

/// Whether the method takes the greatest or the least value.
fn is_extreme(method: &Method) -> bool
    ensures { result ≡ is_extreme method.now }
{
    match method {
        Method::Maximum(_) | Method::Minimum(_) => true,
        Method::Latest(_)
        | Method::Earliest(_)
        | Method::Overwrite
        | Method::Discard
        | Method::Additive
        | Method::Average
        | Method::Priority { .. }
        | Method::SitePriority(_) => false,
    }
}

/// Whether no method of the group decides every conflict, so that some conflicts are errors.
pub fn is_undecided(group: &Group) -> bool
    ensures { result ≡ is_undecided group.now }
{
    for method in group.methods.as_slice() {
        if is_decisive(method) {
            return false;
        }
    }
    true
}

/// Whether a method leaves sites apart, at so many masters, where what the one before didn't decide is equal or isn't.
fn parts_sites(masters: usize, equal: bool, method: &Method) -> bool
    ensures { result ≡ parts_sites masters equal method.now }
{
    match method {
        Method::Overwrite => true,
        Method::Discard => !equal,
        Method::Average => masters > 2,
        Method::Additive
        | Method::Latest(_)
        | Method::Earliest(_)
        | Method::Maximum(_)
        | Method::Minimum(_)
        | Method::Priority { .. }
        | Method::SitePriority(_) => false,
    }
}

/// The method of a group by which sites that write it at once end apart, at so many masters.
pub fn parting_method(masters: usize, group: &Group) -> Option<Method>
    ensures { result ≡ parting_method masters group.now }
{
    let single = group.columns.len() == 1;
    let mut equal = false;
    for method in group.methods.as_slice() {
        if is_decisive(method) {
            return if parts_sites(masters, equal, method) {
                Some(*method)
            } else {
                None
            };
        }
        equal = single && is_extreme(method);
    }
    None
}
