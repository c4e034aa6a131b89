// Big-endian fields of 1, 2, 4, 6 and 8 bytes, each read where it stands. It knows nothing of messages.
#![tactic(auto)]

ghost use Rattle.std.specs.Prelude.{◌≡◌, ◌+◌, ◌≤◌, length};
ghost use Rattle.laws.specs.Field.{field};

pub fn u8_at(s: &[u8], at: usize) -> u8
    requires { at + 1 ≤ length s.now }
    ensures { result ≡ field s.now at 1 }
{
    s[at]
}

pub fn u16_at(s: &[u8], at: usize) -> u16
    requires { at + 2 ≤ length s.now }
    ensures { result ≡ field s.now at 2 }
{
    u16::from_be_bytes([s[at], s[at + 1]])
}

pub fn u32_at(s: &[u8], at: usize) -> u32
    requires { at + 4 ≤ length s.now }
    ensures { result ≡ field s.now at 4 }
{
    u32::from_be_bytes([s[at], s[at + 1], s[at + 2], s[at + 3]])
}

// Two fields side by side, as u48_at, which has no number type of its own.
pub fn u64_at(s: &[u8], at: usize) -> u64
    requires { at + 8 ≤ length s.now }
    ensures { result ≡ field s.now at 8 }
{
    u64::from(u32_at(s, at)) * 4294967296 + u64::from(u32_at(s, at + 4))
}

pub fn u48_at(s: &[u8], at: usize) -> u64
    requires { at + 6 ≤ length s.now }
    ensures { result ≡ field s.now at 6 }
{
    u64::from(u16_at(s, at)) * 4294967296 + u64::from(u32_at(s, at + 2))
}
