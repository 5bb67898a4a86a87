use crate::text::{escape_character, only_character, text_of, text_times};
use anyhow::{Result, bail};
use std::alloc::{AllocError, Global};
use std::fmt::Write;

/// A name or value that is longer than this, in bytes, and repeats one character is written as that character and a
/// count.
const LONG: usize = 8;

/// The characters that are written as escapes in names and values.
const ESCAPED: [u8; 6] = *b" *,={}";

/// The text of a word up to `{NAME=VALUE,..}` at its end, and the pairs there, in their order. Without a brace there
/// are no pairs.
///
/// A name or a value is a text as [`text_of`] reads it, or `TEXT*COUNT` for a text COUNT times. The characters ` *,={}`
/// are written as escapes in it.
///
/// # Errors
/// Braces around something else, and want of memory.
pub fn split_pairs<'a>(alloc: Global, word: &'a str) -> Result<(&'a str, Vec<(String, String)>)> {
    let Some((front, rest)) = word.split_once('{') else {
        return Ok((word, Vec::new(alloc)));
    };
    match rest.strip_suffix('}') {
        Some(inside) => Ok((front, pairs_of(alloc, inside)?)),
        None => bail!("no brace at the end: {word}"),
    }
}

/// The pairs between braces.
fn pairs_of(alloc: Global, inside: &str) -> Result<Vec<(String, String)>> {
    let mut pairs = Vec::new(alloc);
    for pair in inside.split(',') {
        pairs.push(pair_of(alloc, pair)?)?;
    }
    Ok(pairs)
}

fn pair_of(alloc: Global, pair: &str) -> Result<(String, String)> {
    match pair.split_once('=') {
        Some((name, value)) => Ok((counted(alloc, name)?, counted(alloc, value)?)),
        None => bail!("no pair: {pair}"),
    }
}

/// The text of `TEXT`, or of `TEXT*COUNT`.
fn counted(alloc: Global, word: &str) -> Result<String> {
    match word.split_once('*') {
        Some((text, count)) => text_times(alloc, text, count.parse()?),
        None => text_of(alloc, word),
    }
}

/// Appends `{NAME=VALUE,..}`, as [`split_pairs`] reads it. Appends nothing where there is no pair.
///
/// # Errors
/// Want of memory.
pub fn write_pairs(pairs: &[(String, String)], into: &mut String) -> Result<(), AllocError> {
    for (index, (name, value)) in pairs.iter().enumerate() {
        into.push(if index == 0 { '{' } else { ',' })?;
        write_part(name.as_str(), into)?;
        into.push('=')?;
        write_part(value.as_str(), into)?;
    }
    if pairs.is_empty() {
        return Ok(());
    }
    into.push('}')
}

/// Appends a name or a value.
fn write_part(text: &str, into: &mut String) -> Result<(), AllocError> {
    match only_character(text) {
        Some(character) if text.len() > LONG => {
            write_character(character, into)?;
            write!(into, "*{}", text.chars().count())
        }
        _ => {
            for character in text.chars() {
                write_character(character, into)?;
            }
            Ok(())
        }
    }
}

fn write_character(character: char, into: &mut String) -> Result<(), AllocError> {
    match u8::try_from(character) {
        Ok(byte) if ESCAPED.contains(&byte) => write!(into, "\\x{byte:02x}"),
        _ => escape_character(character, into),
    }
}
