//! Objects and lists of JSON for people, of which what memory is refused for is left out. No contract speaks of them.

use serde_json::{Map, Value, push, put};
use std::alloc::Global;
use std::str;

/// An object that grows.
#[derive(Drop)]
pub struct Object {
    alloc: Global,
    members: Map<String, Value>,
}

impl Object {
    /// No member.
    pub fn new(alloc: Global) -> Object {
        Object {
            alloc,
            members: Map::new(alloc),
        }
    }

    /// Puts a member.
    pub fn put(&mut self, key: &str, value: Value) {
        let alloc = self.alloc;
        let _ = put(&mut self.members, alloc, key, value);
    }

    /// Puts a text; bytes that are not UTF-8 are left out.
    pub fn text(&mut self, key: &str, bytes: &[u8]) {
        let value = text_value(self.alloc, bytes);
        self.put(key, value);
    }

    /// Puts a number.
    pub fn number(&mut self, key: &str, number: usize) {
        self.put(key, Value::from(number));
    }

    /// Puts a truth value.
    pub fn truth(&mut self, key: &str, holds: bool) {
        self.put(key, Value::Bool(holds));
    }

    /// The members.
    pub fn members(self) -> Map<String, Value> {
        let Object { members, .. } = self;
        members
    }

    /// The object.
    pub fn done(self) -> Value {
        Value::Object(self.members())
    }
}

/// A text, or `null` where the bytes are not UTF-8.
pub fn text_value(alloc: Global, bytes: &[u8]) -> Value {
    let Ok(text) = str::from_utf8(bytes) else {
        return Value::Null;
    };
    match Value::try_from_str(alloc, text) {
        Ok(value) => value,
        Err(_) => Value::Null,
    }
}

/// Adds an item.
pub fn add(value: Value, list: &mut Vec<Value>) {
    let _ = push(list, value);
}
