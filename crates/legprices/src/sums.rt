// The sums that the later legs can make, in tables of bits: made once, and looked into for every price.
ghost use Rattle.std.specs.Prelude.{◌≡◌, [], ◌∷◌, ◌+◌, ◌-◌, ◌*◌, ◌≤◌, ◌<◌, eqb};
ghost use Rattle.rules.specs.Strategy.{most_ratio};
ghost use Rattle.rules.specs.LegPrices.{most_wide};
ghost use Rattle.legprices.specs.Sums.{reach, spans_from, Bounded, table_words, stands, table_at, Made, Ready};
ghost use Rattle.legprices.specs.Tables.{Merged, Changed, moved, smeared, Shows};

use crate::Ranges;

// The words of a table, the bits of a word, and those of a table.
const TABLE_WORDS: usize = 22;

const WORD_BITS: usize = 64;

const TABLE_BITS: usize = TABLE_WORDS * WORD_BITS;

// A word joined with two others, high above low, that are moved up by m bits.
fn merged(word: u64, low: u64, high: u64, m: usize) -> u64
    requires { m < 64 }
    ensures { Merged word low high m result }
{
    word | (high << m) | ((low >> 1) >> (63 - m))
}

// Each sum of a table also with a more: from the top word down, so that the words below are still as they were.
fn spread(bits: &mut [u64; 44], base: usize, words: usize, a: usize)
    requires { (base + words ≤ 44) × (a < words * 64) }
    ensures { Changed words base bits.old bits.new (moved (stands bits.old base) a) }
{
    let q = a / WORD_BITS;
    let m = a % WORD_BITS;
    for k in (q + 1..words).rev() {
        let high = base + k - q;
        bits[base + k] = merged(bits[base + k], bits[high - 1], bits[high], m);
    }
    bits[base + q] = merged(bits[base + q], 0, bits[base], m);
}

// A number as a size.
fn size(x: u32) -> usize
    ensures { result ≡ x }
{
    x as usize
}

// Each sum of a table also with some cents of a leg more, up to its width, which is read bit by bit from the top: h is what was read.
fn smear(bits: &mut [u64; 44], base: usize, words: usize, ratio: u32, width: u32)
    requires { (base + words ≤ 44) × (ratio ≤ most_ratio) × (width ≤ most_wide) × (ratio * width < words * 64) }
    ensures { Changed words base bits.old bits.new (smeared (stands bits.old base) ratio width) }
{
    let mut h: u32 = 0;
    for k in (0..6u32).rev() {
        let next = width >> k;
        spread(bits, base, words, size(ratio * (next - h)));
        h = next;
    }
}

// The table of no leg: the sum 0 alone.
fn clear(bits: &mut [u64; 44], base: usize)
    requires { base + table_words ≤ 44 }
    ensures { Changed table_words base bits.old bits.new (λ s. eqb s 0) }
{
    for k in (1..TABLE_WORDS).rev() {
        bits[base + k] = 0;
    }
    bits[base] = 1;
}

// The second table as the first. No `copy_within`, which is a call of memcpy: no message makes one.
fn copy(bits: &mut [u64; 44])
    ensures { Changed table_words 0 bits.old bits.new (stands bits.old table_words) }
{
    for k in (0..TABLE_WORDS).rev() {
        bits[k] = bits[TABLE_WORDS + k];
    }
}

// The table of the last two legs. One leg makes at most 450, and two 900.
fn last_two(legs: &Ranges, bits: &mut [u64; 44])
    requires { Bounded legs.now × (3 ≤ legs.now.count) }
    ensures { Shows bits.new (table_at (legs.now.count - 2)) (spans_from legs.now (legs.now.count - 2)) }
{
    let n = legs.count;
    let base = (n - 3) * TABLE_WORDS;
    clear(bits, base);
    smear(bits, base, 8, legs.ratios[n - 1], legs.widths[n - 1]);
    smear(bits, base, 15, legs.ratios[n - 2], legs.widths[n - 2]);
}

// The tables of some legs.
pub fn make(legs: &Ranges, bits: &mut [u64; 44])
    requires { Bounded legs.now }
    ensures { Made legs.now bits.new }
{
    if legs.count < 3 {
        return;
    }
    last_two(legs, bits);
    if legs.count == 4 {
        copy(bits);
        smear(bits, 0, TABLE_WORDS, legs.ratios[1], legs.widths[1]);
    }
}

// Whether one leg can make a sum.
fn alone(ratio: u32, width: u32, s: u64) -> bool
    requires { (ratio ≤ most_ratio) × (width ≤ most_wide) }
    ensures { result ≡ reach (record { ratio = ratio; width = width } ∷ []) s }
{
    let most = u64::from(ratio * width);
    if most < s {
        return false;
    }
    if ratio < 2 {
        return true;
    }
    (s as u32) % ratio == 0
}

// Whether the legs from place i on can make a sum; no leg makes 0.
pub fn reaches(legs: &Ranges, bits: &[u64; 44], i: usize, s: u64) -> bool
    requires { Ready legs.now bits.now × (1 ≤ i) × (i ≤ legs.now.count) }
    ensures { result ≡ reach (spans_from legs.now i) s }
{
    if i == legs.count {
        return s == 0;
    }
    if i + 1 == legs.count {
        return alone(legs.ratios[i], legs.widths[i], s);
    }
    let at = s as usize;
    if TABLE_BITS <= at {
        return false;
    }
    let word = bits[(i - 1) * TABLE_WORDS + at / WORD_BITS];
    (word >> (at % WORD_BITS)) % 2 == 1
}
