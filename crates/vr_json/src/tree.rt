//! Trees that are built and printed.

ghost use Rattle.std.specs.Prelude.{◌≡◌, ◌≤◌, false, IfOk, OnOk, Some};
ghost use Rattle.serde_json.specs.Data.{depth, no_members, object, put, string};
ghost use Rattle.serde_json.specs.Read.{max_depth, read};
ghost use Rattle.serde_json.specs.View.{view};
ghost use Rattle.serde_json.specs.Written.{has_float};
ghost use Rattle.vr_json.specs.Trees.{text_line, one};

use serde_json::{Map, Value};
use std::alloc::Global;
use vr_model::{NoMemory, Seq};

/// An object under construction.
#[derive(Drop)]
pub struct Tree {
    alloc: Global,
    members: Map<String, Value>,
}

impl Tree {
    ghost use Rattle.vr_json.specs.Trees.{members_put};

    /// An object with no key. It takes no memory.
    pub fn new(alloc: Global) -> Tree
        ensures { members_put result ≡ no_members }
    {
        Tree {
            alloc,
            members: Map::new(alloc),
        }
    }

    /// Puts a value at a key, in place of the value that is there.
    ///
    /// After `NoMemory` nothing is said of the tree.
    pub fn put(&mut self, key: &str, value: Value) -> Result<(), NoMemory>
        ensures { OnOk result (members_put self.new ≡ put key.now (view value) (members_put self.old)) }
    {
        serde_json::put(&mut self.members, self.alloc, key, value)?;
        Ok(())
    }

    /// The object of the keys and values that were put.
    pub fn finish(self) -> Value
        ensures { view result ≡ object (members_put self) }
    {
        Value::Object(self.members)
    }
}

/// An array of one entry.
pub fn one_entry(alloc: Global, entry: Value) -> Result<Value, NoMemory>
    ensures { IfOk result (λ tree. view tree ≡ one (view entry)) }
{
    let mut all = Vec::new(alloc);
    all.push(entry)?;
    Ok(Value::Array(all))
}

/// A text as a value.
pub fn text_value(alloc: Global, text: &str) -> Result<Value, NoMemory>
    ensures { IfOk result (λ tree. view tree ≡ string text.now) }
{
    Ok(Value::String(String::from_str(alloc, text)?))
}

/// A tree as one line: its compact text, with the keys of each object in byte order, and a line feed.
pub fn to_line(alloc: Global, value: &Value) -> Result<Seq<u8>, NoMemory>
    requires whole { has_float (view value.now) ≡ false }
    requires nested { depth (view value.now) ≤ max_depth }
    ensures text { IfOk result (λ line. line ≡ text_line (view value.now)) }
    ensures reads_back { IfOk result (λ line. read line ≡ Some (view value.now)) }
{
    let text = value.to_string(alloc)?;
    let mut line = Seq::from(text.into_bytes());
    line.push(10)?;
    Ok(line)
}
