//! The checksum CRC-32 (ISO 3309), as zlib has it.

/// The checksum of bytes so far, and more of them.
#[derive(Drop)]
pub struct Checksum {
    state: u32,
}

impl Checksum {
    pub fn new() -> Checksum {
        Checksum { state: u32::MAX }
    }

    pub fn add(&mut self, bytes: &[u8]) {
        for byte in bytes {
            self.state ^= *byte as u32;
            for _ in 0..8 {
                let shifted = self.state >> 1;
                self.state = if self.state & 1 == 1 {
                    shifted ^ 0xEDB8_8320
                } else {
                    shifted
                };
            }
        }
    }

    pub fn value(&self) -> u32 {
        !self.state
    }
}
