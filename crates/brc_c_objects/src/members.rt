use serde_json::{Map, Value, put};
use std::alloc::{AllocError, Global};

/// The members of an object that is being made.
#[derive(Drop)]
pub(crate) struct Members {
    alloc: Global,
    members: Map<String, Value>,
}

impl Members {
    pub(crate) fn new(alloc: Global) -> Members {
        Members {
            alloc,
            members: Map::new(alloc),
        }
    }

    /// Gives a member a value, in place of the one that it has.
    pub(crate) fn set(&mut self, name: &str, value: Value) -> Result<(), AllocError> {
        put(&mut self.members, self.alloc, name, value)
    }

    pub(crate) fn set_text(&mut self, name: &str, text: &str) -> Result<(), AllocError> {
        let value = Value::try_from_str(self.alloc, text)?;
        self.set(name, value)
    }

    pub(crate) fn set_number(&mut self, name: &str, number: u32) -> Result<(), AllocError> {
        self.set(name, Value::from(number))
    }

    /// Gives a member a text, if there is one.
    pub(crate) fn set_some(&mut self, name: &str, text: Option<&str>) -> Result<(), AllocError> {
        match text {
            Some(text) => self.set_text(name, text),
            None => Ok(()),
        }
    }

    pub(crate) fn into_value(self) -> Value {
        Value::Object(self.members)
    }
}

/// Returns the object with one text.
pub(crate) fn with_text(alloc: Global, name: &str, text: &str) -> Result<Value, AllocError> {
    let mut members = Members::new(alloc);
    members.set_text(name, text)?;
    Ok(members.into_value())
}

/// Returns the list of one value.
pub(crate) fn list_of(alloc: Global, value: Value) -> Result<Value, AllocError> {
    let mut list = Vec::new(alloc);
    list.push(value)?;
    Ok(Value::Array(list))
}
