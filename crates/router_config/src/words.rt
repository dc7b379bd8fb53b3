//! The first fault of a configuration in words.
ghost use Rattle.std.specs.Prelude.{◌≡◌, IfOk, is_err, is_some};
ghost use Rattle.router_config.specs.Config.{values_of};

use crate::config::config_at;
use crate::fault::ConfigFault;
use crate::hint::{hint_at, hint_of_line, strayed};
use crate::location::{Key, Location, location_in};
use std::alloc::{AllocError, Global};
use std::ops::Range;
use toml::de::Error;
use toml::{Table, Value};

/// What is there, in one line. The forwarding key isn't shown.
fn found(alloc: Global, key: Key, value: &Value) -> Result<String, AllocError> {
    match value {
        Value::String(text) if key == Key::Forwarding => {
            format!(in alloc; "a text of {} bytes", text.len())
        }
        _ if key == Key::Forwarding => String::from_str(alloc, "no text"),
        Value::Array(members) => format!(in alloc; "a list of {}", members.len()),
        Value::Table(_) => String::from_str(alloc, "a table"),
        other => format!(in alloc; "{other}"),
    }
}

/// What is at a key of a table, if there is one.
fn found_at(alloc: Global, key: Key, table: Option<&Table>) -> Result<String, AllocError> {
    match table {
        Some(table) => match table.get(key.name()) {
            Some(value) => found(alloc, key, value),
            None => String::from_str(alloc, "missing"),
        },
        None => String::from_str(alloc, "missing"),
    }
}

/// The member of a list with a number, counted from 1, if it is a table.
fn member_at(table: &Table, list: Key, number: usize) -> Option<&Table> {
    let members = table.get(list.name())?.as_array()?;
    members.get(number.checked_sub(1)?)?.as_table()
}

/// A hint at what may be meant by what is at a key of a table.
fn hint_in(key: Key, table: Option<&Table>) -> &'static str {
    match table {
        Some(table) => match table.get(key.name()) {
            Some(value) => hint_at(key, value),
            None => "",
        },
        None => "",
    }
}

/// What is at a key, and what is wanted there; `of` says of which member of a list.
fn value_words(
    alloc: Global,
    key: Key,
    of: &str,
    table: Option<&Table>,
) -> Result<String, AllocError> {
    let found = found_at(alloc, key, table)?;
    let hint = hint_in(key, table);
    format!(in alloc;
        "`{}`{of} is {found}; wanted: {}{hint}",
        key.name(),
        key.wanted()
    )
}

/// The words of a key of the configuration itself, which may stand in a member of a list instead.
fn top_words(alloc: Global, key: Key, table: &Table) -> Result<String, AllocError> {
    let words = value_words(alloc, key, "", Some(table))?;
    match (table.get(key.name()), strayed(table, key)) {
        (None, Some((list, number))) => format!(in alloc;
            "{words}; it belongs to the table above it, {} {number}: write it above the first list",
            list.name()
        ),
        _ => Ok(words),
    }
}

/// What is at a place, and what is wanted there.
fn words_at(alloc: Global, table: &Table, location: Location) -> Result<String, AllocError> {
    match location {
        Location::Value(key) => top_words(alloc, key, table),
        Location::Member(list, number) => {
            format!(in alloc; "{} {number} is not a table", list.name())
        }
        Location::MemberValue(list, number, key) => {
            let of = format!(in alloc; " of {} {number}", list.name())?;
            value_words(alloc, key, of.as_str(), member_at(table, list, number))
        }
    }
}

/// The line in which a span of a text begins, counted from 1.
fn line_of(text: &str, span: Option<Range<usize>>) -> usize {
    let start = match span {
        Some(span) => span.start,
        None => 0,
    };
    let ends = text.as_bytes().iter().take(start);
    ends.filter(|byte| **byte == b'\n')
        .count()
        .saturating_add(1)
}

/// Why a text is not TOML, and where.
fn toml_words(alloc: Global, text: &str, error: &Error) -> Result<String, AllocError> {
    let number = line_of(text, error.span());
    let hint = match text.lines().nth(number.saturating_sub(1)) {
        Some(line) => hint_of_line(line),
        None => "",
    };
    format!(in alloc; "line {number}: {}{hint}", error.message())
}

/// Where the first fault of a text is, in words: at which key, in a list also of which of its
/// members, counted from 1; what is there; and what is wanted. The forwarding key isn't shown. None
/// where the text is a configuration. `Err` where no memory is left.
pub fn fault_words(alloc: Global, text: &str) -> Result<Option<String>, AllocError>
    ensures { IfOk result (λ words. is_some words ≡ is_err (values_of text.now)) }
{
    match toml::table_from_str(alloc, text) {
        Ok(table) => match config_at(alloc, &table) {
            Ok(_) => Ok(None),
            Err(fault) => match fault {
                ConfigFault::Memory => Err(AllocError),
                _ => {
                    let location = location_in(alloc, &table)?;
                    Ok(Some(words_at(alloc, &table, location)?))
                }
            },
        },
        Err(error) if error.is_memory() => Err(AllocError),
        Err(error) => Ok(Some(toml_words(alloc, text, &error)?)),
    }
}
