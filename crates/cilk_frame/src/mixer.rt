//! Numbers that tell states apart for a table. Nothing is decided by one.

/// A number that is made of others, one after another: of the same it is the same, and of others it mostly is another. It promises nothing.
#[derive(Clone, Copy)]
pub struct Mixer {
    mixed: u64,
}

impl Mixer {
    /// Of no number yet.
    pub fn new() -> Mixer {
        Mixer { mixed: 0 }
    }

    /// One number more.
    pub fn put(&mut self, number: u64) {
        self.mixed = (self.mixed.rotate_left(5) ^ number).wrapping_mul(0x517c_c1b7_2722_0a95);
    }

    /// One signed number more.
    pub fn put_signed(&mut self, number: i32) {
        self.put(number.cast_unsigned() as u64);
    }

    /// What they came to.
    pub fn mixed(self) -> u64 {
        let folded = (self.mixed ^ (self.mixed >> 32)).wrapping_mul(0xd6e8_feb8_6659_fd93);
        folded ^ (folded >> 32)
    }
}
