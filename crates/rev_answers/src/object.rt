//! Objects of JSON, made member by member.
use serde_json::{Map, Value, put};
use std::alloc::{AllocError, Global};

/// An object that is made. It holds what was put into it. So a function that makes one holds no members beside it, whose
/// drops would be proved again at each of its exits.
pub(crate) struct Object {
    members: Map<String, Value>,
}

// Written, since a derived drop is proved again at each exit of each caller.
impl Drop for Object {
    fn drop(self) {
        let Object { members: _members } = self;
    }
}

impl Object {
    /// One without members.
    pub(crate) fn new(alloc: Global) -> Object {
        Object {
            members: Map::new(alloc),
        }
    }

    /// One of this kind.
    pub(crate) fn of_kind(alloc: Global, kind: &str) -> Result<Object, AllocError> {
        let mut object = Object::new(alloc);
        object.put_text(alloc, "kind", kind)?;
        Ok(object)
    }

    /// Adds a member.
    pub(crate) fn put(
        &mut self,
        alloc: Global,
        name: &str,
        member: Value,
    ) -> Result<(), AllocError> {
        put(&mut self.members, alloc, name, member)
    }

    /// Adds a text.
    pub(crate) fn put_text(
        &mut self,
        alloc: Global,
        name: &str,
        text: &str,
    ) -> Result<(), AllocError> {
        let text = String::from_str(alloc, text)?;
        self.put(alloc, name, Value::String(text))
    }

    /// Adds a number.
    pub(crate) fn put_number(
        &mut self,
        alloc: Global,
        name: &str,
        number: u64,
    ) -> Result<(), AllocError> {
        self.put(alloc, name, Value::from(number))
    }

    /// Adds a truth.
    pub(crate) fn put_flag(
        &mut self,
        alloc: Global,
        name: &str,
        flag: bool,
    ) -> Result<(), AllocError> {
        self.put(alloc, name, Value::Bool(flag))
    }

    /// The value that was made.
    pub(crate) fn value(self) -> Value {
        let Object { members } = self;
        Value::Object(members)
    }
}
