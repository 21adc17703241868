// Numbers of a fixed width, the lowest byte first.
ghost use Rattle.std.specs.Prelude.{◌≡◌, ℕ, ◌≤◌};
ghost use Rattle.std.proofs.Common.{lit≤};
ghost use Rattle.packed_layout.specs.Codec.{bytes, value};

// A number of `W` bytes.
pub trait Number<const W: usize>: Copy {
    ghost number: { Self → ℕ };

    fn from_bytes(bytes: &[u8; W]) -> Self
        ensures { number result ≡ value bytes.now };

    fn to_bytes(self) -> [u8; W]
        ensures { result ≡ bytes W (number self) };

    ghost narrow: { W ≤ 8 };
}

impl Number<1> for u8 {
    ghost number = { λ n. n };

    ghost narrow = { lit≤ tt };

    fn from_bytes(bytes: &[u8; 1]) -> u8 {
        u8::from_le_bytes(*bytes)
    }

    fn to_bytes(self) -> [u8; 1] {
        self.to_le_bytes()
    }
}

impl Number<2> for u16 {
    ghost number = { λ n. n };

    ghost narrow = { lit≤ tt };

    fn from_bytes(bytes: &[u8; 2]) -> u16 {
        u16::from_le_bytes(*bytes)
    }

    fn to_bytes(self) -> [u8; 2] {
        self.to_le_bytes()
    }
}

impl Number<4> for u32 {
    ghost number = { λ n. n };

    ghost narrow = { lit≤ tt };

    fn from_bytes(bytes: &[u8; 4]) -> u32 {
        u32::from_le_bytes(*bytes)
    }

    fn to_bytes(self) -> [u8; 4] {
        self.to_le_bytes()
    }
}

impl Number<8> for u64 {
    ghost number = { λ n. n };

    ghost narrow = { lit≤ tt };

    fn from_bytes(bytes: &[u8; 8]) -> u64 {
        u64::from_le_bytes(*bytes)
    }

    fn to_bytes(self) -> [u8; 8] {
        self.to_le_bytes()
    }
}
