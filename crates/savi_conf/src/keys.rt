//! The keys of a configuration: which there may be, of which kind their values are, and which there have to be.
ghost use Rattle.std.specs.BTreeMap.{keys};
ghost use Rattle.std.specs.Prelude.{
  ◌≡◌,
  ◌↔◌,
  IsTrue,
  IsSome,
  All,
  Any,
  IfSome,
  string_bytes,
};
ghost use Rattle.savi_conf.specs.Keys.{
  HasKinds,
  HasOnly,
  HasRequired,
  IsInteger,
  IsIntegers,
  IsKnown,
  IsTables,
  IsText,
  are_integers,
  port_keys,
  prefix_keys,
  top_keys,
};
ghost use Rattle.toml.specs.Data.{get_member};
ghost use Rattle.toml.specs.Text.{are_tables};
ghost use Rattle.toml.specs.View.{items_view, table_view, view};

use crate::document::value_at;
use toml::{Table, Value};

// The keys that a table may have, by the kind of the value, and those that it has to have. The arrays are of tables, the lists
// of integers.
#[derive(Clone, Copy)]
pub(crate) struct KeyNames {
    texts: &'static [&'static str],
    integers: &'static [&'static str],
    arrays: &'static [&'static str],
    lists: &'static [&'static str],
    required: &'static [&'static str],
}

impl KeyNames {
    ghost use Rattle.savi_conf.specs.KeyNames.{HasOtherKinds, IsOtherKey, keys_of};

    // The keys of the document.
    pub(crate) fn top() -> KeyNames
        ensures { keys_of result ≡ top_keys }
    {
        KeyNames {
            texts: &[
                "mac",
                "journal",
                "control",
                "control_out",
                "savi",
                "unknown",
            ],
            integers: &[
                "per_port",
                "depth",
                "entries",
                "bytes",
                "probe_gap_ms",
                "test_ms",
                "binding_s",
            ],
            arrays: &["port", "prefix"],
            lists: &[],
            required: &["mac", "journal", "port"],
        }
    }

    // The keys of a port.
    pub(crate) fn port() -> KeyNames
        ensures { keys_of result ≡ port_keys }
    {
        KeyNames {
            texts: &["role", "format", "input", "output"],
            integers: &["number", "vlan"],
            arrays: &[],
            lists: &["trunk"],
            required: &["number", "role", "input", "output"],
        }
    }

    // The keys of a prefix.
    pub(crate) fn prefix() -> KeyNames
        ensures { keys_of result ≡ prefix_keys }
    {
        KeyNames {
            texts: &["prefix", "method"],
            integers: &["vlan"],
            arrays: &[],
            lists: &[],
            required: &["prefix", "method"],
        }
    }

    // Whether the table may have the key.
    fn has(&self, key: &str) -> bool
        ensures { IsTrue result ↔ IsKnown (keys_of self.now) key.now }
    {
        self.has_other(key) || is_among(key, self.lists)
    }

    // Whether it may have the key with another value than a list.
    fn has_other(&self, key: &str) -> bool
        ensures { IsTrue result ↔ IsOtherKey (keys_of self.now) key.now }
    {
        is_among(key, self.texts) || is_among(key, self.integers) || is_among(key, self.arrays)
    }

    // Whether each key of the table is known.
    pub(crate) fn has_only(&self, table: &Table) -> bool
        ensures { IsTrue result ↔ HasOnly (keys_of self.now) (table_view table.now) }
    {
        self.has_each(table)
    }

    fn has_each(&self, table: &Table) -> bool
        ensures { IsTrue result ↔ All (λ key. IsKnown (keys_of self.now) (string_bytes key)) (keys table.now) }
    {
        for key in table.keys() {
            if !self.has(key.as_str()) {
                return false;
            }
        }
        true
    }

    // Whether what stands at each key has the kind of that key.
    pub(crate) fn has_kinds(&self, table: &Table) -> bool
        ensures { IsTrue result ↔ HasKinds (keys_of self.now) (table_view table.now) }
    {
        self.has_other_kinds(table) && has_lists(table, self.lists)
    }

    // The same of the keys of another value than a list.
    fn has_other_kinds(&self, table: &Table) -> bool
        ensures { IsTrue result ↔ HasOtherKinds (keys_of self.now) (table_view table.now) }
    {
        has_texts(table, self.texts)
            && has_integers(table, self.integers)
            && has_arrays(table, self.arrays)
    }

    // Whether each key that has to be there is there.
    pub(crate) fn has_required(&self, table: &Table) -> bool
        ensures { IsTrue result ↔ HasRequired (keys_of self.now) (table_view table.now) }
    {
        has_all(table, self.required)
    }
}

// Whether the key is one of the words.
fn is_among(key: &str, words: &[&str]) -> bool
    ensures { IsTrue result ↔ Any (λ w. w.now ≡ key.now) words.now }
{
    words.iter().any(|word| *word == key)
}

// Whether what stands at each of the keys is a text.
fn has_texts(table: &Table, keys: &[&str]) -> bool
    ensures { IsTrue result ↔ All (λ key. IfSome (get_member key.now (table_view table.now)) IsText) keys.now }
{
    keys.iter().all(|key| has_text(table, key))
}

fn has_integers(table: &Table, keys: &[&str]) -> bool
    ensures { IsTrue result ↔ All (λ key. IfSome (get_member key.now (table_view table.now)) IsInteger) keys.now }
{
    keys.iter().all(|key| has_integer(table, key))
}

fn has_arrays(table: &Table, keys: &[&str]) -> bool
    ensures { IsTrue result ↔ All (λ key. IfSome (get_member key.now (table_view table.now)) IsTables) keys.now }
{
    keys.iter().all(|key| has_tables(table, key))
}

fn has_lists(table: &Table, keys: &[&str]) -> bool
    ensures { IsTrue result ↔ All (λ key. IfSome (get_member key.now (table_view table.now)) IsIntegers) keys.now }
{
    keys.iter().all(|key| has_list(table, key))
}

fn has_all(table: &Table, keys: &[&str]) -> bool
    ensures { IsTrue result ↔ All (λ key. IsSome (get_member key.now (table_view table.now))) keys.now }
{
    keys.iter().all(|key| has_key(table, key))
}

// Whether what stands at a key, if anything, is a text.
fn has_text(table: &Table, key: &str) -> bool
    ensures { IsTrue result ↔ IfSome (get_member key.now (table_view table.now)) IsText }
{
    match value_at(table, key) {
        Some(value) => value.is_str(),
        None => true,
    }
}

fn has_integer(table: &Table, key: &str) -> bool
    ensures { IsTrue result ↔ IfSome (get_member key.now (table_view table.now)) IsInteger }
{
    match value_at(table, key) {
        Some(value) => value.is_integer(),
        None => true,
    }
}

// Whether what stands at a key, if anything, is an array of tables.
fn has_tables(table: &Table, key: &str) -> bool
    ensures { IsTrue result ↔ IfSome (get_member key.now (table_view table.now)) IsTables }
{
    match value_at(table, key) {
        Some(value) => is_array_of_tables(value),
        None => true,
    }
}

// Whether what stands at a key, if anything, is an array of integers.
fn has_list(table: &Table, key: &str) -> bool
    ensures { IsTrue result ↔ IfSome (get_member key.now (table_view table.now)) IsIntegers }
{
    match value_at(table, key) {
        Some(value) => is_array_of_integers(value),
        None => true,
    }
}

fn has_key(table: &Table, key: &str) -> bool
    ensures { IsTrue result ↔ IsSome (get_member key.now (table_view table.now)) }
{
    value_at(table, key).is_some()
}

fn is_array_of_tables(value: &Value) -> bool
    ensures { IsTrue result ↔ IsTables (view value.now) }
{
    match value.as_array() {
        Some(values) => are_all_tables(values.as_slice()),
        None => false,
    }
}

fn are_all_tables(values: &[Value]) -> bool
    ensures { result ≡ are_tables (items_view values.now) }
{
    for value in values {
        if !value.is_table() {
            return false;
        }
    }
    true
}

fn is_array_of_integers(value: &Value) -> bool
    ensures { IsTrue result ↔ IsIntegers (view value.now) }
{
    match value.as_array() {
        Some(values) => are_all_integers(values.as_slice()),
        None => false,
    }
}

fn are_all_integers(values: &[Value]) -> bool
    ensures { result ≡ are_integers (items_view values.now) }
{
    for value in values {
        if !value.is_integer() {
            return false;
        }
    }
    true
}
