//! Numbers that are printed with their names: in lines, or as an object of JSON.

use crate::byte_size::Grouped;
use crate::failure::{FailureCause, to_output};
use serde_json::{Map, Value, put};
use std::alloc::{AllocError, Global};

/// A number after its name in lines and its name in JSON, which is empty where it has none there.
pub type NamedNumber = (&'static str, &'static str, u64);

/// Prints each number on a line.
pub fn print_lines(rt: &HostRuntime, numbers: &[NamedNumber]) -> Result<(), FailureCause> {
    for named in numbers {
        let (name, _, number) = *named;
        let number = Grouped(number);
        to_output(println!(rt; "  {name:<16}{number}"))?;
    }
    Ok(())
}

/// Adds the numbers that have a name in JSON to an object.
pub fn add_numbers(
    alloc: Global,
    members: &mut Map<String, Value>,
    numbers: &[NamedNumber],
) -> Result<(), AllocError> {
    for named in numbers {
        let (_, key, number) = *named;
        if !key.is_empty() {
            put(members, alloc, key, Value::from(number))?;
        }
    }
    Ok(())
}

// The text of an object of JSON: a text under its key, and numbers.
fn object_of(
    alloc: Global,
    key: &str,
    text: &str,
    numbers: &[NamedNumber],
) -> Result<String, AllocError> {
    let mut members = Map::new(alloc);
    put(&mut members, alloc, key, Value::try_from_str(alloc, text)?)?;
    add_numbers(alloc, &mut members, numbers)?;
    Value::Object(members).to_string(alloc)
}

/// Prints an object of JSON on a line: a path under its key, and the numbers.
pub fn print_object(
    rt: &HostRuntime,
    key: &str,
    path: &str,
    numbers: &[NamedNumber],
) -> Result<(), FailureCause> {
    let object = object_of(rt.alloc(), key, path, numbers)?;
    to_output(println!(rt; "{object}"))
}

/// Prints a path and the numbers of what is there: in lines, or as an object of JSON, in which the path has this key.
pub fn print_named(
    rt: &HostRuntime,
    key: &str,
    path: &str,
    numbers: &[NamedNumber],
    is_json: bool,
) -> Result<(), FailureCause> {
    if is_json {
        return print_object(rt, key, path, numbers);
    }
    to_output(println!(rt; "{path}"))?;
    print_lines(rt, numbers)
}
