//! The bytes that a line stands for.

use std::alloc::Global;

/// The bytes that a text of a table stands for, if each number in it is one of a byte and there is
/// memory for them.
pub fn bytes_of(alloc: Global, text: &str) -> Option<Vec<u8>> {
    let mut bytes = Vec::new(alloc);
    for (place, piece) in text.split('<').enumerate() {
        let mut plain = piece;
        if place > 0 {
            let (number, rest) = piece.split_once('>')?;
            bytes.push(u8::from_str_radix(number, 16).ok()?).ok()?;
            plain = rest;
        }
        for byte in plain.bytes() {
            let byte = match byte {
                b'~' => b'\n',
                b'^' => b'\r',
                _ => byte,
            };
            bytes.push(byte).ok()?;
        }
    }
    Some(bytes)
}
