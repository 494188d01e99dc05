// Document 01, "Tape": "Little-endian", "prices signed". Numbers at an offset of a lent slice; a byte past its end is 0.
ghost use Rattle.std.specs.Prelude.{◌≡◌, ◌+◌, ◌*◌, ◌<◌, ◌^◌, get_or};
ghost use Rattle.rules.specs.Tape.{half, word, long, signed};

// ---- of bytes, the low one first

fn half_of(low: u8, high: u8) -> u16
    ensures { result ≡ low + 256 * high }
{
    u16::from_le_bytes([low, high])
}

fn word_of(a: u8, b: u8, c: u8, d: u8) -> u32
    ensures { result ≡ a + 256 * b + 65536 * (c + 256 * d) }
{
    u32::from_le_bytes([a, b, c, d])
}

// ---- at an offset that leaves room for the bytes behind it

fn byte_in(s: &[u8], at: usize) -> u8
    ensures { result ≡ get_or s.now at 0 }
{
    s.get(at).copied().unwrap_or(0)
}

// Where all bytes of a number are inside, one test serves for them.
fn half_in(s: &[u8], at: usize) -> u16
    requires { at + 1 < 2 ^ 64 }
    ensures { result ≡ half s.now at }
{
    if at + 1 < s.len() {
        return half_of(s[at], s[at + 1]);
    }
    half_of(byte_in(s, at), byte_in(s, at + 1))
}

fn word_in(s: &[u8], at: usize) -> u32
    requires { at + 3 < 2 ^ 64 }
    ensures { result ≡ word s.now at }
{
    let behind = at + 2;
    if behind + 1 < s.len() {
        return word_of(s[at], s[at + 1], s[behind], s[behind + 1]);
    }
    let low = half_in(s, at) as u32;
    let high = half_in(s, behind) as u32;
    low + 65_536 * high
}

fn long_in(s: &[u8], at: usize) -> u64
    requires { at + 7 < 2 ^ 64 }
    ensures { result ≡ long s.now at }
{
    let low = word_in(s, at) as u64;
    let high = word_in(s, at + 4) as u64;
    low + 4_294_967_296 * high
}

// ---- at any offset

// The byte at an offset.
pub fn byte_at(s: &[u8], at: u32) -> u8
    ensures { result ≡ get_or s.now at 0 }
{
    byte_in(s, at as usize)
}

// The 16-bit number at an offset.
pub fn half_at(s: &[u8], at: u32) -> u16
    ensures { result ≡ half s.now at }
{
    half_in(s, at as usize)
}

// The 32-bit number at an offset.
pub fn word_at(s: &[u8], at: u32) -> u32
    ensures { result ≡ word s.now at }
{
    word_in(s, at as usize)
}

// The 64-bit number at an offset.
pub fn long_at(s: &[u8], at: u32) -> u64
    ensures { result ≡ long s.now at }
{
    long_in(s, at as usize)
}

// ---- signed

// The signed number that 32 bits stand for.
pub fn signed_of(bits: u32) -> i32
    ensures { result ≡ signed bits }
{
    bits.cast_signed()
}

// The signed 32-bit number at an offset.
pub fn signed_at(s: &[u8], at: u32) -> i32
    ensures { result ≡ signed (word s.now at) }
{
    signed_of(word_at(s, at))
}
