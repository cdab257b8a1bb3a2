//! Bytes that are made, from the front on.

/// The greatest number of bytes.
pub const ROOM: usize = 4096;

#[derive(Drop)]
pub struct Page {
    pub bytes: [u8; ROOM],
    pub end: usize,
}

impl Page {
    pub fn new() -> Page {
        Page {
            bytes: [0; ROOM],
            end: 0,
        }
    }

    /// Puts a number behind what is there, in so many bytes, the highest first.
    pub fn put(&mut self, size: usize, number: u64) {
        let digits = number.to_be_bytes();
        let skipped = digits.len().saturating_sub(size);
        let slots = self.bytes.iter_mut().skip(self.end);
        for (slot, digit) in slots.zip(digits.iter().skip(skipped)) {
            *slot = *digit;
        }
        self.end = self.end.saturating_add(size);
    }

    /// What was put, or its first bytes.
    pub fn text(&self, length: usize) -> &[u8] {
        self.bytes.get(..length).unwrap_or(&self.bytes)
    }
}
