//! Bytes as tables write them.
use go_base::Memory;
use std::alloc::Global;

/// The bytes that pairs of hexadecimal digits write.
///
/// # Errors
///
/// Want of memory.
pub fn bytes_of(alloc: Global, text: &str) -> Result<Vec<u8>, Memory> {
    let mut bytes = Vec::new(alloc);
    for pair in text.as_bytes().chunks_exact(2) {
        if let [high, low] = pair {
            bytes.push(digit(*high) << 4 | digit(*low))?;
        }
    }
    Ok(bytes)
}

fn digit(byte: u8) -> u8 {
    match byte {
        b'0'..=b'9' => byte - b'0',
        b'a'..=b'f' => byte - b'a' + 10,
        _ => 0,
    }
}

/// The bytes that a piece writes: two digits for each, or a byte, `*` and how often it comes.
fn push_piece(alloc: Global, bytes: &mut Vec<u8>, piece: &str) -> Result<(), Memory> {
    let (digits, count) = match piece.split_once('*') {
        None => (piece, 1),
        Some((digits, count)) => (digits, count.parse::<usize>().unwrap_or(0)),
    };
    let part = bytes_of(alloc, digits)?;
    for _ in 0..count {
        bytes.extend_from_slice(&part)?;
    }
    Ok(())
}

/// The bytes that pieces divided by `+` write, and none for `-`.
///
/// # Errors
///
/// Want of memory.
pub fn pieces(alloc: Global, text: &str) -> Result<Vec<u8>, Memory> {
    let mut bytes = Vec::new(alloc);
    if text == "-" {
        return Ok(bytes);
    }
    for piece in text.split('+') {
        push_piece(alloc, &mut bytes, piece)?;
    }
    Ok(bytes)
}
