// Keys, values and names of the tests.
use std::alloc::Global;
use std::test::Fail;
use sv_model::{Key, Name, Value};

pub fn name(bytes: &str) -> Result<Name, Fail> {
    Ok(Name::new(bytes.as_bytes()).ok_or("a name")?)
}

pub fn key(alloc: Global, bytes: &str) -> Result<Key, Fail> {
    Ok(Key::new(alloc, bytes.as_bytes())?)
}

pub fn value(alloc: Global, bytes: &str) -> Result<Value, Fail> {
    Ok(Value::new(alloc, bytes.as_bytes())?)
}

/// Whether the value is there, and of these bytes.
pub fn is(found: &Option<Value>, bytes: &str) -> bool {
    match found {
        Some(value) => value.as_bytes() == bytes.as_bytes(),
        None => false,
    }
}
