// The symbols of series: "the options clearing house's OSI form".
#![tactic(auto)]

ghost use Rattle.std.specs.Prelude.{◌≡◌, not, ◌&&◌, ◌+◌, ◌-◌, ◌≤◌};
ghost use Rattle.std.specs.List.{list_all, position_or_len};
ghost use Rattle.rules.specs.Basics.{between};
ghost use Rattle.rules.specs.Series.{root_of, is_capital, digits, good_root, good_date, good_type, good_strike, good_symbol, on_third_friday};
ghost use Rattle.rules.specs.Strategy.{same_bytes};
ghost use Rattle.series.specs.Parts.{part};

// Whether all bytes of a part lie between two.
fn all_within(symbol: &[u8; 21], low: u8, high: u8, start: usize, end: usize) -> bool
    requires { (start ≤ end) × (end ≤ 21) }
    ensures { result ≡ list_all (λ b. between low b high) (part symbol.now start end) }
{
    symbol[start..end]
        .iter()
        .all(|byte| (low..=high).contains(byte))
}

// Where the root's capitals end: what is left of it must be spaces.
fn capitals(symbol: &[u8; 21]) -> usize
    ensures { result ≡ position_or_len (λ b. not (is_capital b)) (root_of symbol.now) }
{
    let other = symbol[..6]
        .iter()
        .position(|byte| !byte.is_ascii_uppercase());
    other.unwrap_or(6)
}

// A digit's value, 0 for a byte below them.
fn digit(byte: u8) -> u32
    ensures { (result ≡ byte - 48) × (result ≤ 207) }
{
    u32::from(byte.saturating_sub(b'0'))
}

// The number that two bytes write.
fn pair(symbol: &[u8; 21], at: usize) -> u32
    requires { at + 2 ≤ 21 }
    ensures { (result ≡ digits 0 (part symbol.now at (at + 2))) × (result ≤ 2277) }
{
    digit(symbol[at]) * 10 + digit(symbol[at + 1])
}

// "root of 1 to 6 capitals padded with spaces to 6".
fn good_root(symbol: &[u8; 21]) -> bool
    ensures { result ≡ good_root symbol.now }
{
    let end = capitals(symbol);
    symbol[0].is_ascii_uppercase() & all_within(symbol, b' ', b' ', end, 6)
}

// "yymmdd .., a month outside 01 to 12 included".
fn good_date(symbol: &[u8; 21]) -> bool
    ensures { result ≡ good_date symbol.now }
{
    let month = pair(symbol, 8);
    all_within(symbol, b'0', b'9', 6, 12) & (1..=12).contains(&month)
}

// "C or P".
fn good_type(symbol: &[u8; 21]) -> bool
    ensures { result ≡ good_type symbol.now }
{
    (symbol[12] == b'C') | (symbol[12] == b'P')
}

// "strike as 8 digits in thousandths of a dollar, not zero".
fn good_strike(symbol: &[u8; 21]) -> bool
    ensures { result ≡ good_strike symbol.now }
{
    all_within(symbol, b'0', b'9', 13, 21) & !all_within(symbol, b'0', b'0', 13, 21)
}

// Whether a symbol is well formed.
fn good_symbol(symbol: &[u8; 21]) -> bool
    ensures { result ≡ good_symbol symbol.now }
{
    good_root(symbol) & good_date(symbol) & good_type(symbol) & good_strike(symbol)
}

// Whether a symbol is well formed, and whether it is so with its date "the third Friday of its month".
#[derive(Clone, Copy)]
pub struct Judged {
    pub good: bool,
    pub dated: bool,
}

pub fn judge(symbol: [u8; 21]) -> Judged
    ensures { (result.good ≡ good_symbol symbol) × (result.dated ≡ (good_symbol symbol && on_third_friday symbol)) }
{
    if !good_symbol(&symbol) {
        return Judged {
            good: false,
            dated: false,
        };
    }
    let year = pair(&symbol, 6);
    let month = pair(&symbol, 8);
    let day = pair(&symbol, 10);
    Judged {
        good: true,
        dated: calendar::is_third_friday(year * 12 + (month - 1), day),
    }
}

// Whether two symbols are the same.
pub fn same_symbol(a: [u8; 21], b: [u8; 21]) -> bool
    ensures { result ≡ same_bytes a b }
{
    a == b
}

// Whether the roots of two symbols are the same.
pub fn same_root(a: [u8; 21], b: [u8; 21]) -> bool
    ensures { result ≡ same_bytes (root_of a) (root_of b) }
{
    a[..6] == b[..6]
}
