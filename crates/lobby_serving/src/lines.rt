//! How figures are spelled, as Prometheus reads them.
use std::alloc::{AllocError, Global};

/// Puts the lines in front of a figure: what it tells, and of what kind it is.
pub fn put_head(
    text: &mut String,
    alloc: Global,
    name: &str,
    kind: &str,
    help: &str,
) -> Result<(), AllocError> {
    let head = format!(in alloc;
        "# HELP chess_lobby_{name} {help}\n# TYPE chess_lobby_{name} {kind}\n"
    )?;
    text.push_str(head.as_str())
}

/// Puts a figure that is one number.
pub fn put_number(
    text: &mut String,
    alloc: Global,
    name: &str,
    kind: &str,
    help: &str,
    number: u64,
) -> Result<(), AllocError> {
    put_head(text, alloc, name, kind, help)?;
    let line = format!(in alloc; "chess_lobby_{name} {number}\n")?;
    text.push_str(line.as_str())
}

/// Puts a row of a figure that has several, by what they are told apart.
pub fn put_labelled(
    text: &mut String,
    alloc: Global,
    name: &str,
    label: &str,
    value: &str,
    number: u64,
) -> Result<(), AllocError> {
    let line = format!(in alloc; "chess_lobby_{name}{{{label}=\"{value}\"}} {number}\n")?;
    text.push_str(line.as_str())
}

/// Milliseconds as seconds.
pub fn seconds(alloc: Global, milliseconds: u64) -> Result<String, AllocError> {
    let whole = milliseconds / 1_000;
    let rest = milliseconds % 1_000;
    format!(in alloc; "{whole}.{rest:03}")
}
