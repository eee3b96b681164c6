//! The arbiter's token, in a file.
use anyhow::{Context, Result, bail};
use std::fs::{File, OpenFile};
use std::io::Read;
use std::os::unix::fs::PermissionsExt;
use std::rt::Files;

// A token is so many digits of base 16.
const DIGITS: usize = 32;

// What others than a file's owner may do with it.
const OTHERS: u32 = 0o077;

// The token of a text: its first line, or what stands behind the `#` of a link there; none where that is none.
fn token_in(text: &str) -> Option<&str> {
    let line = match text.split_once('\n') {
        Some((line, _)) => line.trim_end(),
        None => text,
    };
    let token = match line.split_once('#') {
        Some((_, behind)) => behind,
        None => line,
    };
    let is_token = token.len() == DIGITS
        && token
            .as_bytes()
            .iter()
            .all(|byte| matches!(*byte, b'0'..=b'9' | b'a'..=b'f'));
    if is_token { Some(token) } else { None }
}

// What a file has that its owner alone may read.
fn own_text<R: Files + AllocGlobal>(rt: &R, path: &str) -> Result<String> {
    let mut file = File::open(rt, path)?;
    if file.metadata()?.permissions().mode() & OTHERS != 0 {
        bail!("others may read it, and so play as its arbiter: chmod 600 it");
    }
    let mut text = String::new(rt.alloc());
    file.read_to_string(&mut text)?;
    Ok(text)
}

/// The token in a file: its first line, or a link there. It fails where the file is none that its owner alone may read,
/// or has no token.
pub fn token_of<R: Files + AllocGlobal>(rt: &R, path: &str) -> Result<String> {
    let text = own_text(rt, path).context(format_args!("reading {path}"))?;
    match token_in(text.as_str()) {
        Some(token) => Ok(String::from_str(rt.alloc(), token)?),
        None => bail!(
            "{path} has no token in its first line: 32 digits of base 16, or a link that ends with them"
        ),
    }
}
