//! What a hash map reads of a token.
ghost use Rattle.std.specs.Prelude.{◌≡◌, flat_map, fold};
ghost use Rattle.std.specs.Cmp.{partial_equiv_from_equiv};
ghost use Rattle.dependency_index.specs.Tokens.{is_same_token};
ghost use Rattle.dependency_index.specs.SameTokens.{is_same_token_equiv, value_writes, token_writes, token_writes-same};

use crate::Token;
use rep_values::Value;
use std::hash::{Hash, Hasher};

fn write_value<H: Hasher>(value: &Value, state: &mut H)
    ensures { state.new ≡ fold H.write state.old (value_writes value.now) }
{
    match value {
        Value::Num(number) => state.write_i64(*number),
        Value::Words(text) => state.write(text.bytes()),
    }
}

fn write_values<H: Hasher>(values: &[Value], state: &mut H)
    ensures { state.new ≡ fold H.write state.old (flat_map value_writes values.now) }
{
    for value in values {
        write_value(value, state);
    }
}

impl PartialEq for Token {
    ghost eq = { is_same_token };

    ghost laws = { partial_equiv_from_equiv is_same_token_equiv };

    fn eq(&self, other: &Token) -> bool {
        self.is_same(other)
    }
}

impl Eq for Token {
    ghost laws = { is_same_token_equiv };
}

impl Hash for Token {
    ghost hash_input = { token_writes };

    ghost respects_eq = { token_writes-same };

    fn hash<H: Hasher>(&self, state: &mut H) {
        match self {
            Token::Key { table, key } => {
                state.write_u32(*table);
                write_values(key.values(), state);
            }
            Token::Unique { table } => state.write_u32(*table),
        }
    }
}
