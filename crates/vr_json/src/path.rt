//! At which path of a JSON tree a value is.

ghost use Rattle.std.specs.Prelude.{◌≡◌, [], IfOk};
ghost use Rattle.vr_json.specs.Paths.{item_path, name_path};
ghost use Rattle.vr_json.specs.Places.{place_path};

use crate::{Place, Step};
use std::alloc::Global;
use std::fmt::Write;
use std::marker::Model;
use vr_model::{NoMemory, Text};

/// The path of a value: empty for the top value. Each field adds `/` and its key as it is, each entry of an array `/`
/// and its number from 0. So entry 2 of the field `nodes` of an object at the top has the path `/nodes/2`.
#[derive(Drop)]
pub struct Path {
    alloc: Global,
    text: String,
}

impl Model for Path {
    ghost use Rattle.std.specs.Prelude.{List, ℕ, string_bytes};

    ghost Value = { List ℕ };

    ghost view = { λ p. string_bytes p.text };
}

impl Path {
    /// The path of the top value. It takes no memory.
    pub fn root(alloc: Global) -> Path
        ensures { result ≡ [] }
    {
        Path {
            alloc,
            text: String::new(alloc),
        }
    }

    /// The path of the field of this key, a text of its own; `field` is the place without one.
    pub fn name(&self, key: &str) -> Result<Path, NoMemory>
        ensures { IfOk result (λ p. p ≡ name_path self.now key.now) }
    {
        let mut text = self.text.clone()?;
        text.push_str("/")?;
        text.push_str(key)?;
        Ok(Path {
            alloc: self.alloc,
            text,
        })
    }

    /// The path of entry `k`, from 0, a text of its own; `entry` is the place without one.
    pub fn item(&self, k: usize) -> Result<Path, NoMemory>
        ensures { IfOk result (λ p. p ≡ item_path self.now k) }
    {
        let mut text = self.text.clone()?;
        write!(text, "/{k}")?;
        Ok(Path {
            alloc: self.alloc,
            text,
        })
    }

    /// The same path.
    pub(crate) fn copy(&self) -> Result<Path, NoMemory>
        ensures { IfOk result (λ p. p ≡ self.now) }
    {
        Ok(Path {
            alloc: self.alloc,
            text: self.text.clone()?,
        })
    }

    /// The place of the path itself.
    pub fn here(&self) -> Place<'_>
        ensures { place_path result ≡ self.now }
    {
        Place {
            parent: self,
            step: Step::Here,
        }
    }

    /// The place of the field of this key.
    pub fn field<'a>(&'a self, key: &'a str) -> Place<'a>
        ensures { place_path result ≡ name_path self.now key.now }
    {
        Place {
            parent: self,
            step: Step::Field(key),
        }
    }

    /// The place of entry `k`, from 0.
    pub fn entry(&self, k: usize) -> Place<'_>
        ensures { place_path result ≡ item_path self.now k }
    {
        Place {
            parent: self,
            step: Step::Entry(k),
        }
    }

    // The path as it is.
    pub(crate) fn as_str(&self) -> &str
        ensures { result.now ≡ self.now }
    {
        self.text.as_str()
    }
}
