//! One entry of an array, and the values at its keys.
ghost use Rattle.std.specs.Prelude.{◌≡◌, ◌≤◌, Some, IfOk, map, option_map, option_and_then};
ghost use Rattle.std.specs.Option.{option_copied};
ghost use Rattle.toml.specs.Data.{as_integer, as_str, as_bool};
ghost use Rattle.toml.specs.Data as data_of;
ghost use Rattle.toml.specs.View.{view, table_view};
ghost use Rattle.domain_conf.specs.Reading.{Gives};
ghost use Rattle.domain_conf.specs.Fields as fields;
ghost use Rattle.domain_conf.specs.Forms as forms;

use crate::fault::ConfFault;
use crate::forms::{bsl_in, within};
use std::alloc::Global;
use toml::{Table, Value};
use wire_base::{Bsl, M, Octets};

/// An entry of an array: its index, from 0, and its table.
#[derive(Clone, Copy)]
pub struct Entry<'a> {
    pub alloc: Global,
    pub array: &'a str,
    pub place: usize,
    pub value: &'a Value,
}

fn is_among(key: &str, known: &[&str]) -> bool
    ensures { result ≡ fields.is_among (map (λ k. k.now) known.now) key.now }
{
    known.contains(&key)
}

/// Returns the first key of a table, in octet order, that is none of the known ones.
pub fn unknown_in<'a>(table: &'a Table, known: &[&str]) -> Option<&'a str>
    ensures { option_copied result ≡ fields.unknown_in (map (λ k. k.now) known.now) (fields.keys_of (table_view table.now)) }
{
    for (key, _value) in table {
        if !is_among(key.as_str(), known) {
            return Some(key.as_str());
        }
    }
    None
}

impl<'a> Entry<'a> {
    /// Returns the path of a key, such as `router[2].prefix`.
    #[tactic(auto, unfolding(crate::specs::Fields::entry_path))]
    pub fn path(&self, key: &str) -> M<Octets>
        ensures { IfOk result (λ path. path ≡ fields.entry_path self.now.array.now self.now.place key.now) }
    {
        let Entry {
            alloc,
            array,
            place,
            ..
        } = *self;
        let text = format!(in alloc; "{array}[{place}].{key}")?;
        Octets::from_slice(alloc, text.as_bytes())
    }

    #[tactic(auto, unfolding(crate::specs::Fields::unknown_in))]
    fn unknown(&self, known: &[&str]) -> Option<&'a str>
        ensures { option_copied result ≡ fields.unknown_in (map (λ k. k.now) known.now) (fields.keys_in (view self.now.value.now)) }
    {
        match self.value.as_table() {
            Some(table) => unknown_in(table, known),
            None => None,
        }
    }

    /// Checks that the entry has no keys but these.
    pub fn has_only(&self, known: &[&str]) -> Result<(), ConfFault>
        ensures { Gives (λ _. tt) result (fields.known_keys (fields.entry_path self.now.array.now self.now.place) (map (λ k. k.now) known.now) (view self.now.value.now)) }
    {
        match self.unknown(known) {
            Some(key) => Err(ConfFault::Field(self.path(key)?)),
            None => Ok(()),
        }
    }

    fn integer(&self, key: &str) -> Option<i64>
        ensures { result ≡ option_and_then as_integer (data_of.get key.now (view self.now.value.now)) }
    {
        match self.value.get(key) {
            Some(value) => value.as_integer(),
            None => None,
        }
    }

    /// Returns the text at a key.
    pub fn text(&self, key: &str) -> Option<&'a str>
        ensures { option_copied result ≡ option_and_then as_str (data_of.get key.now (view self.now.value.now)) }
    {
        match self.value.get(key) {
            Some(value) => value.as_str(),
            None => None,
        }
    }

    /// Returns the number at a key, which must be within bounds.
    #[tactic(auto, unfolding(crate::specs::Fields::field))]
    pub fn number(&self, key: &str, low: u32, high: u32) -> Result<u32, ConfFault>
        ensures value { Gives (λ n. n) result (fields.number low high (fields.entry_path self.now.array.now self.now.place) key.now (view self.now.value.now)) }
        ensures fits { IfOk result (λ n. n ≤ high) }
    {
        let Some(n) = self.integer(key) else {
            return Err(ConfFault::Field(self.path(key)?));
        };
        let Some(n) = within(n, low, high) else {
            return Err(ConfFault::Range(self.path(key)?));
        };
        Ok(n)
    }

    /// Returns the BitStringLength at the key `bsl`.
    #[tactic(auto, unfolding(crate::specs::Fields::field))]
    pub fn bsl(&self) -> Result<Bsl, ConfFault>
        ensures { Gives (λ bsl. bsl) result (fields.bsl (fields.entry_path self.now.array.now self.now.place) (view self.now.value.now)) }
    {
        let Some(n) = self.integer("bsl") else {
            return Err(ConfFault::Field(self.path("bsl")?));
        };
        let Some(bsl) = bsl_in(n) else {
            return Err(ConfFault::Range(self.path("bsl")?));
        };
        Ok(bsl)
    }

    /// Returns the boolean at a key; false if the key is missing.
    #[tactic(auto, unfolding(crate::specs::Fields::field))]
    pub fn flag(&self, key: &str) -> Result<bool, ConfFault>
        ensures { Gives (λ flag. flag) result (fields.flag (fields.entry_path self.now.array.now self.now.place) key.now (view self.now.value.now)) }
    {
        let Some(value) = self.value.get(key) else {
            return Ok(false);
        };
        match value.as_bool() {
            Some(flag) => Ok(flag),
            None => Err(ConfFault::Field(self.path(key)?)),
        }
    }
}
