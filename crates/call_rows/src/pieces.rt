//! Bytes, as rows write and say them.

use anyhow::Result;
use rows::{Said, unescape};
use std::alloc::Global;

/// The bytes of pieces with a bar between them: each is a text, or `COUNT*TEXT` for a text COUNT times.
pub(crate) fn bytes_in_pieces(alloc: Global, text: &str) -> Result<Vec<u8>> {
    let mut bytes = Vec::new(alloc);
    for piece in text.split('|') {
        add_piece(piece, &mut bytes)?;
    }
    Ok(bytes)
}

fn add_piece(piece: &str, bytes: &mut Vec<u8>) -> Result<()> {
    let (count, text) = piece.split_once('*').unwrap_or(("", piece));
    let Ok(count) = count.parse::<u64>() else {
        return unescape(piece, bytes);
    };
    for _ in 0..count {
        unescape(text, bytes)?;
    }
    Ok(())
}

/// Says the bytes from a place on.
pub(crate) fn say_from(at: u64, bytes: &[u8], said: &mut Said) {
    match bytes.get(at as usize..) {
        Some(bytes) => said.escape(bytes),
        None => said.put("none"),
    }
    said.put("\n");
}
