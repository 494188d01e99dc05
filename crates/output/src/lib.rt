// What a program hands to the system, counted where it is handed over.
#![tactic(auto)]

ghost use Rattle.std.specs.Prelude.{◌≡◌, ◌+◌, length};
ghost use Rattle.output.specs.Counted.{counted};

// The number by which the system knows standard output.
pub const STDOUT: i32 = 1;

// How many bytes were handed over in all, and whether the system took the last of them, which it alone can say.
#[derive(Clone, Copy)]
pub struct Handed {
    pub bytes: u64,
    pub taken: bool,
}

impl Handed {
    // What is counted at most.
    pub const MOST_BYTES: u64 = 1_000_000_000_000_000_000;
}

// So many bytes more.
pub fn count_up(total: u64, n: usize) -> u64
    ensures { result ≡ counted (total + n) }
{
    let more = n as u64;
    if total < Handed::MOST_BYTES {
        if more < Handed::MOST_BYTES - total {
            return total + more;
        }
    }
    Handed::MOST_BYTES
}

// All of a part of a page; so many bytes were handed over before it.
pub fn hand_over(part: &[u8], before: u64) -> Handed
    ensures { result.bytes ≡ counted (before + length part.now) }
{
    let taken = io::write_all(STDOUT, part);
    let bytes = count_up(before, part.len());
    Handed { bytes, taken }
}
