//! The server's settings as last reported (PostgreSQL documentation, "Asynchronous Operations").

ghost use Rattle.std.specs.Prelude.{◌≡◌, [], string_bytes, MatchResult, map, option_map, slice_get};
ghost use Rattle.pg_connect.specs.Kept.{keep, value_of};
ghost use Rattle.pg_spec.specs.Parameters.{NamesRise};

use pg_types::OutOfMemory;
use std::alloc::Global;
use std::collections::BTreeMap;
use std::marker::Model;

/// The last value of each reported name, seen as names and values, ascending by the name's bytes.
#[derive(Drop)]
pub struct Parameters {
    last: BTreeMap<String, String>,
}

impl Model for Parameters {
    ghost use Rattle.std.specs.Prelude.{List, ℕ, map, string_bytes};
    ghost use Rattle.pg_spec.specs.Parameters.{NamesRise};

    ghost Value = { List (List ℕ × List ℕ) };

    ghost view = { λ p. map (λ entry. (string_bytes entry.0, string_bytes entry.1)) p.last.entries };

    ghost invariant = { λ p. NamesRise (map (λ entry. (string_bytes entry.0, string_bytes entry.1)) p.last.entries) };
}

impl Parameters {
    /// Nothing was reported. It takes no memory.
    pub fn new(alloc: Global) -> Parameters
        ensures { result ≡ [] }
    {
        Parameters {
            last: BTreeMap::new(alloc),
        }
    }

    /// Keeps a report in place of an earlier one for this name. Where memory lacks, all is as before.
    pub fn keep(&mut self, name: String, value: String) -> Result<(), OutOfMemory>
        ensures { MatchResult result (λ _. self.new ≡ keep self.old (string_bytes name, string_bytes value)) (λ _. self.new ≡ self.old) }
    {
        self.last.insert(name, value)?;
        Ok(())
    }

    /// The names and their values, ascending by the name's bytes.
    pub fn as_map(&self) -> &BTreeMap<String, String>
        ensures { map (λ entry. (string_bytes entry.0, string_bytes entry.1)) result.now.entries ≡ self.now }
    {
        &self.last
    }

    /// The value of a name.
    pub fn get(&self, name: &str) -> Option<&str>
        ensures { option_map (λ text. text.now) result ≡ value_of self.now name.now }
    {
        match self.last.get(name) {
            Some(value) => Some(value.as_str()),
            None => None,
        }
    }

    /// Name and value at place `i`, counted from 0. None comes from their number on.
    pub fn at(&self, i: usize) -> Option<(&str, &str)>
        ensures at { option_map (λ pair. (pair.0.now, pair.1.now)) result ≡ slice_get self.now i }
        ensures rising { NamesRise self.now }
    {
        let mut place = 0;
        for (name, value) in &self.last {
            if place == i {
                return Some((name.as_str(), value.as_str()));
            }
            place += 1;
        }
        None
    }
}
