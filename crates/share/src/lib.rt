// Document 01, "Execution": an amount shared by size, and an amount given by arrival, over the first slots of arrays of 66.
#![tactic(auto)]

ghost use Rattle.std.specs.Prelude.{◌≡◌, ◌<◌, ◌≤◌, min, take, drop};
ghost use Rattle.rules.specs.Basics.{sum};
ghost use Rattle.rules.specs.Share.{parts, gots, lefts, shares, in_turn};
ghost use Rattle.share.specs.Loops.{max_from};

// Two slots for the legs, and one for each place of the book. An array of all and how many of them count: a slice would ask that there be no more.
const SLOTS: usize = 2 + state::Book::MOST_ENTRIES;

// "orders by arrival": each as much as is left.
pub fn in_turn(sizes: &[u32; 66], n: usize, amount: u32, out: &mut [u32; 66])
    ensures { (take (min n 66) out.new ≡ in_turn amount (take (min n 66) sizes.now))
        × (drop (min n 66) out.new ≡ drop (min n 66) out.old) }
{
    let m = n.min(SLOTS);
    let mut rest = amount;
    for i in 0..m {
        let g = rest.min(sizes[i]);
        out[i] = g;
        rest -= g;
    }
}

// The sum of the sizes.
fn total(sizes: &[u32; 66], n: usize) -> u64
    requires { n ≤ 66 }
    ensures { result ≡ sum (take n sizes.now) }
{
    let mut t: u64 = 0;
    for i in 0..n {
        t += u64::from(sizes[i]);
    }
    t
}

// "amount × size ÷ total, rounded down", and the remainders.
fn rounded(
    sizes: &[u32; 66],
    n: usize,
    amount: u32,
    all: u64,
    out: &mut [u32; 66],
    rest: &mut [u64; 66],
)
    requires { (n ≤ 66) × (0 < all) × (all ≡ sum (take n sizes.now)) }
    ensures { (take n out.new ≡ gots (parts amount all (take n sizes.now))) × (take n rest.new ≡ lefts (parts amount all (take n sizes.now)))
        × (drop n out.new ≡ drop n out.old) }
{
    for i in 0..n {
        let x = (amount as u64) * u64::from(sizes[i]);
        out[i] = (x / all) as u32;
        rest[i] = x % all;
    }
}

// Where the first of the largest stands: "the largest remainders, ties to earlier arrival".
fn first_max(rest: &[u64; 66], n: usize) -> usize
    requires { n ≤ 66 }
    ensures { (result ≡ max_from 0 0 0 (take n rest.now)) × (0 < n → result < n) }
{
    let mut at = 0;
    let mut most: u64 = 0;
    for i in 0..n {
        let x = rest[i];
        if most < x {
            at = i;
            most = x;
        }
    }
    at
}

// Sizes of some units: rounded down, then "leftover units go one each to the largest remainders".
fn by_size(sizes: &[u32; 66], n: usize, amount: u32, all: u64, out: &mut [u32; 66])
    requires { (n ≤ 66) × (0 < all) × (all ≡ sum (take n sizes.now)) }
    ensures { (take n out.new ≡ shares amount (take n sizes.now))
        × (drop n out.new ≡ drop n out.old) }
{
    let mut rest = [0u64; 66];
    rounded(sizes, n, amount, all, out, &mut rest);
    let left = (amount as u64) - total(out, n);
    for given in 0..left {
        let i = first_max(&rest, n);
        out[i] += 1;
        rest[i] = 0;
    }
}

// Sizes of 0 only: all units are left over, and the first slot has the largest remainder.
fn to_first(sizes: &[u32; 66], n: usize, amount: u32, out: &mut [u32; 66])
    requires { (n ≤ 66) × (sum (take n sizes.now) ≡ 0) }
    ensures { (take n out.new ≡ shares amount (take n sizes.now))
        × (drop n out.new ≡ drop n out.old) }
{
    in_turn(sizes, n, amount, out);
    if 0 < n {
        out[0] = amount;
    }
}

// "shared by size".
pub fn share(sizes: &[u32; 66], n: usize, amount: u32, out: &mut [u32; 66])
    ensures { (take (min n 66) out.new ≡ shares amount (take (min n 66) sizes.now))
        × (drop (min n 66) out.new ≡ drop (min n 66) out.old) }
{
    let m = n.min(SLOTS);
    let all = total(sizes, m);
    if 0 < all {
        by_size(sizes, m, amount, all, out);
    } else {
        to_first(sizes, m, amount, out);
    }
}
