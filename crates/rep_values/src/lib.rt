//! Values, texts, names, keys and rows, the order of keys, and why calls are refused.
#![tactic(auto)]

mod bytes;
mod key;
mod literal;
mod name;
mod order;
mod refusal;
mod row;
mod text;
mod value;

pub use bytes::{is_digit, is_letter};
pub use key::Key;
pub use literal::Literal;
pub use name::{Name, SiteName, TableName};
pub use order::{
    compare_keys, compare_names, compare_values, key_order_laws, name_order_laws, same_value,
    same_values,
};
pub use refusal::{ApplyError, Limit, Refusal};
pub use row::Row;
pub use text::Text;
pub use value::Value;
