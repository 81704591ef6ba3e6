//! The forms of a convergent table's groups.
ghost use Rattle.std.specs.Prelude.{◌≡◌};
ghost use Rattle.rep_schema.specs.Kinds.{is_stamp, is_site_kind};
ghost use Rattle.schema_rules.specs.Forms.{is_additive, is_discard, latest_column, extreme_of, own_column, latest_form, form_of_one, form_of_two, form_of};

use crate::columns::{is_site_at, is_stamp_at};
use crate::method_rules::{is_one_number, site_column};
use rep_schema::{Column, Group, Method, has_place};

/// How the values of a convergent group end alike in whatever order its updates come. A number names a column.
#[derive(Clone, Copy, Debug, PartialEq, Eq)]
pub enum Form {
    /// The sum of all amounts.
    Sum,
    /// The greatest value of the group's only column.
    Greatest(u32),
    /// The least value of the group's only column.
    Least(u32),
    /// The values with the greatest stamp, and of those the site with the greatest level.
    Latest { stamp: u32, site: u32 },
}

fn is_additive(method: &Method) -> bool
    ensures { result ≡ is_additive method.now }
{
    *method == Method::Additive
}

fn is_discard(method: &Method) -> bool
    ensures { result ≡ is_discard method.now }
{
    *method == Method::Discard
}

fn latest_column(method: &Method) -> Option<u32>
    ensures { result ≡ latest_column method.now }
{
    match method {
        Method::Latest(column) => Some(*column),
        Method::Earliest(_)
        | Method::Overwrite
        | Method::Discard
        | Method::Additive
        | Method::Average
        | Method::Maximum(_)
        | Method::Minimum(_)
        | Method::Priority { .. }
        | Method::SitePriority(_) => None,
    }
}

fn extreme_of(method: &Method) -> Option<Form>
    ensures { result ≡ extreme_of method.now }
{
    match method {
        Method::Maximum(column) => Some(Form::Greatest(*column)),
        Method::Minimum(column) => Some(Form::Least(*column)),
        Method::Latest(_)
        | Method::Earliest(_)
        | Method::Overwrite
        | Method::Discard
        | Method::Additive
        | Method::Average
        | Method::Priority { .. }
        | Method::SitePriority(_) => None,
    }
}

fn own_stamp(columns: &[Column], places: &[u32], column: Option<u32>) -> Option<u32>
    ensures { result ≡ own_column is_stamp columns.now places.now column }
{
    match column {
        Some(place) => {
            if has_place(places, place as usize) && is_stamp_at(columns, place) {
                Some(place)
            } else {
                None
            }
        }
        None => None,
    }
}

fn own_site(columns: &[Column], places: &[u32], column: Option<u32>) -> Option<u32>
    ensures { result ≡ own_column is_site_kind columns.now places.now column }
{
    match column {
        Some(place) => {
            if has_place(places, place as usize) && is_site_at(columns, place) {
                Some(place)
            } else {
                None
            }
        }
        None => None,
    }
}

fn latest_form(columns: &[Column], places: &[u32], first: &Method, second: &Method) -> Option<Form>
    ensures { result ≡ latest_form columns.now places.now first.now second.now }
{
    let stamp = own_stamp(columns, places, latest_column(first));
    let site = own_site(columns, places, site_column(second));
    match (stamp, site) {
        (Some(stamp), Some(site)) => Some(Form::Latest { stamp, site }),
        (None, None) | (None, Some(_)) | (Some(_), None) => None,
    }
}

fn form_of_one(columns: &[Column], places: &[u32], only: &Method) -> Option<Form>
    ensures { result ≡ form_of_one columns.now places.now only.now }
{
    if is_one_number(columns, places) && is_additive(only) {
        Some(Form::Sum)
    } else {
        None
    }
}

fn form_of_two(columns: &[Column], places: &[u32], first: &Method, second: &Method) -> Option<Form>
    ensures { result ≡ form_of_two columns.now places.now first.now second.now }
{
    if is_one_number(columns, places) && is_discard(second) {
        extreme_of(first)
    } else {
        latest_form(columns, places, first, second)
    }
}

/// The form of a group of these columns; None where it has none and so may not stand in a convergent table.
pub fn form_of(columns: &[Column], group: &Group) -> Option<Form>
    ensures { result ≡ form_of columns.now group.now }
{
    let places = group.columns.as_slice();
    match group.methods.as_slice() {
        [only] => form_of_one(columns, places, only),
        [first, second] => form_of_two(columns, places, first, second),
        _ => None,
    }
}
