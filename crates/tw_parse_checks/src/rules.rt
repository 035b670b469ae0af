//! The rules of names in checks.
ghost use Rattle.std.specs.Prelude.{◌≡◌, map};
ghost use Rattle.std.specs.Str.{bytes_eq};
ghost use Rattle.tw_parse_checks.specs.Checks.{call_of, order_of};
ghost use Rattle.tw_parse_checks.specs.Meanings.{are_among, are_distinct, family_in, fits, have_distinct, is_among, keep_apart, keeps_rules, none_has, one_has, stand_each};

use crate::check::{ExtOrder, ExtPattern};
use tw_parse::ExtName;

fn is_same(name: &[u8], other: &[u8]) -> bool
    ensures { result ≡ bytes_eq name.now other.now }
{
    name == other
}

// Whether the name is that of one of these.
fn is_among(name: &[u8], names: &[ExtName]) -> bool
    ensures { result ≡ is_among name.now names.now }
{
    if is_same(name, b"_") {
        return false;
    }
    for other in names {
        if is_same(name, other.name.as_bytes()) {
            return true;
        }
    }
    false
}

// Whether no name stands twice.
fn are_distinct(names: &[ExtName]) -> bool
    ensures { result ≡ are_distinct names.now }
{
    let mut left = names;
    while let Some((first, others)) = left.split_first() {
        if is_among(first.name.as_bytes(), others) {
            return false;
        }
        left = others;
    }
    true
}

// Whether each name is that of one of these variables.
fn are_among(variables: &[ExtName], names: &[ExtName]) -> bool
    ensures { result ≡ are_among variables.now names.now }
{
    for x in names {
        if !is_among(x.name.as_bytes(), variables) {
            return false;
        }
    }
    true
}

/// Whether these variables and the names behind the family keep the rules of the full form.
pub fn keeps_rules(variables: &[ExtName], names: &[ExtName]) -> bool
    ensures { result ≡ keeps_rules variables.now names.now }
{
    are_distinct(variables) && are_distinct(names) && are_among(variables, names)
}

// Whether the name is that of the family of one of these patterns.
fn names_family(name: &[u8], patterns: &[ExtPattern]) -> bool
    ensures { result ≡ is_among name.now (map family_in (map call_of patterns.now)) }
{
    if is_same(name, b"_") {
        return false;
    }
    for pattern in patterns {
        if is_same(name, pattern.family.name.as_bytes()) {
            return true;
        }
    }
    false
}

// Whether no family is named in two patterns.
fn families_differ(patterns: &[ExtPattern]) -> bool
    ensures { result ≡ are_distinct (map family_in (map call_of patterns.now)) }
{
    let mut left = patterns;
    while let Some((first, others)) = left.split_first() {
        if names_family(first.family.name.as_bytes(), others) {
            return false;
        }
        left = others;
    }
    true
}

// Whether the names within each pattern are distinct.
fn have_distinct(patterns: &[ExtPattern]) -> bool
    ensures { result ≡ have_distinct (map call_of patterns.now) }
{
    for pattern in patterns {
        if !are_distinct(&pattern.names) {
            return false;
        }
    }
    true
}

/// Whether call patterns keep their rules.
pub fn keep_apart(patterns: &[ExtPattern]) -> bool
    ensures { result ≡ keep_apart (map call_of patterns.now) }
{
    families_differ(patterns) && have_distinct(patterns)
}

// Whether the name stands in none of these patterns.
fn none_has(name: &[u8], patterns: &[ExtPattern]) -> bool
    ensures { result ≡ none_has name.now (map call_of patterns.now) }
{
    for pattern in patterns {
        if is_among(name, &pattern.names) {
            return false;
        }
    }
    true
}

// Whether it stands in exactly one of them.
fn one_has(name: &[u8], patterns: &[ExtPattern]) -> bool
    ensures { result ≡ one_has name.now (map call_of patterns.now) }
{
    let mut left = patterns;
    while let Some((first, others)) = left.split_first() {
        if is_among(name, &first.names) {
            return none_has(name, others);
        }
        left = others;
    }
    false
}

// Whether these are one name for each pattern, in their order, each of which stands in its pattern and in no other one.
fn stand_each(patterns: &[ExtPattern], names: &[ExtName]) -> bool
    ensures { result ≡ stand_each (map call_of patterns.now) (map call_of patterns.now) names.now }
{
    let mut left = patterns;
    let mut due = names;
    while let Some((pattern, others)) = left.split_first() {
        let Some((name, further)) = due.split_first() else {
            return false;
        };
        if !is_among(name.name.as_bytes(), &pattern.names) {
            return false;
        }
        if !one_has(name.name.as_bytes(), patterns) {
            return false;
        }
        left = others;
        due = further;
    }
    due.is_empty()
}

/// Whether an order keeps the rule of orders with these call patterns.
pub fn fits(patterns: &[ExtPattern], order: &ExtOrder) -> bool
    ensures { result ≡ fits (map call_of patterns.now) (order_of order.now) }
{
    match order {
        ExtOrder::Each(names) => stand_each(patterns, names),
        ExtOrder::Lex(orders) => {
            for component in orders {
                if !fits(patterns, component) {
                    return false;
                }
            }
            true
        }
        ExtOrder::Simul(orders) => {
            for component in orders {
                if !fits(patterns, component) {
                    return false;
                }
            }
            true
        }
    }
}
