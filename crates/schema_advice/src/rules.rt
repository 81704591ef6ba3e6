//! The rules of schemas in words.

/// What the rules of a schema ask for, from rule 1 on.
const RULES: [&str; 17] = [
    "there is a master, declared by `site`",
    "every table has a key column, written `C : TYPE : key`, and no key column is a STAMP",
    "no column of a group is a key column",
    "the column that a group's method names is in the group",
    "a group with `additive` or `average` has one column, a NUMBER",
    "the column of `latest` and `earliest` is a DATE or a STAMP",
    "the column of `maximum` and `minimum` is a NUMBER or a DATE",
    "the column of `priority` is a NUMBER, TEXT or DATE, and its priority group has a level, as by `priority P VALUE N`",
    "the column of `site-priority` is a SITE",
    "the columns of a constraint are no key columns, and are NUMBER, TEXT or DATE",
    "an append is on a constraint other than `key`, and names a TEXT column of it",
    "the first key column of a convergent table is a SITE",
    "a convergent table has no `unique`, no column outside key and groups, and no method on `key`",
    "every group of a convergent table has one of these sequences of methods: `additive`; `maximum C` or `minimum C`, then `discard`; \
`latest C`, then `site-priority D`",
    "where there is a convergent table every site has a level, late masters too, and all levels differ",
    "the column of a check is a NUMBER, TEXT or DATE",
    "a convergent table has no check",
];

/// What a rule of schemas asks for, if there is one of this number. They are numbered from 1.
pub fn rule_text(rule: u8) -> Option<&'static str> {
    let place = usize::from(rule).checked_sub(1)?;
    RULES.get(place).copied()
}
