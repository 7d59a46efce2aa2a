// Numbers of several bytes, little-endian, at a place of a lent slice; bytes copied into one.
#![tactic(auto)]

ghost use Rattle.std.specs.Prelude.{◌≡◌, ℕ, ◌+◌, ◌≤◌, length};
ghost use Rattle.words.specs.Words.{number_at, written};

// A number that is stored in a few bytes.
pub trait Number: Copy {
    // How many bytes it has.
    ghost size: { ℕ };

    ghost number: { Self → ℕ };

    // The number at a place.
    fn read(s: &[u8], at: usize) -> Self
        requires { at + size ≤ length s.now }
        ensures { number result ≡ number_at s.now at size };

    // Writes a number at a place.
    fn write(s: &mut [u8], at: usize, x: Self)
        requires { at + size ≤ length s.old }
        ensures { s.new ≡ written s.old at size (number x) };
}

impl Number for u16 {
    ghost size = { 2 };

    ghost number = { λ x. x };

    fn read(s: &[u8], at: usize) -> u16 {
        u16::from_le_bytes([s[at], s[at + 1]])
    }

    fn write(s: &mut [u8], at: usize, x: u16) {
        s[at..at + 2].copy_from_slice(&x.to_le_bytes());
    }
}

impl Number for u32 {
    ghost size = { 4 };

    ghost number = { λ x. x };

    fn read(s: &[u8], at: usize) -> u32 {
        u32::from_le_bytes([s[at], s[at + 1], s[at + 2], s[at + 3]])
    }

    fn write(s: &mut [u8], at: usize, x: u32) {
        s[at..at + 4].copy_from_slice(&x.to_le_bytes());
    }
}

impl Number for u64 {
    ghost size = { 8 };

    ghost number = { λ x. x };

    fn read(s: &[u8], at: usize) -> u64 {
        u64::from_le_bytes([
            s[at],
            s[at + 1],
            s[at + 2],
            s[at + 3],
            s[at + 4],
            s[at + 5],
            s[at + 6],
            s[at + 7],
        ])
    }

    fn write(s: &mut [u8], at: usize, x: u64) {
        s[at..at + 8].copy_from_slice(&x.to_le_bytes());
    }
}

// Copies bytes over a part as long as they are. In a loop: std's copy of one slice to another calls memmove, and the archive needs none.
pub fn copy(part: &mut [u8], bytes: &[u8])
    requires { length part.old ≡ length bytes.now }
    ensures { part.new ≡ bytes.now }
{
    for i in 0..bytes.len() {
        part[i] = bytes[i];
    }
}
