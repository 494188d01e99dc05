// Signed cents and biased prices, which are the cents plus 40,000,000. Signed numbers are taken apart here and nowhere else.
#![tactic(auto)]

ghost use Rattle.std.specs.Prelude.{◌≡◌, min};
ghost use Rattle.rules.specs.Prices.{is_limit, biased as biased_of, cents as cents_of};
ghost use Rattle.rules.specs.Filter.{beyond};
ghost use Rattle.rules.specs.Refusals.{natural as natural_of, good_local, good_national};

use types::{Fill, Order, Quote};

// Whether a price is one that a limit can have.
pub fn is_limit(price: i32) -> bool
    ensures { result ≡ is_limit price }
{
    price.unsigned_abs() <= Order::MOST_CENTS
}

// A price, biased; one below every limit is 0.
pub fn biased(price: i32) -> u32
    ensures { result ≡ biased_of price }
{
    let size = price.unsigned_abs();
    if price < 0 {
        return Order::MOST_CENTS.saturating_sub(size);
    }
    Order::MOST_CENTS + size
}

// A leg's price as a number; a negative one is 0.
pub fn natural(price: i32) -> u32
    ensures { result ≡ natural_of price }
{
    if price < 0 { 0 } else { price.unsigned_abs() }
}

// A local side: "price 1 to 999,999 with size 1 to 999,999, or both 0 for absent".
pub fn good_local(price: i32, size: u32) -> bool
    ensures { result ≡ good_local price size }
{
    if price < 0 {
        return false;
    }
    let p = price.unsigned_abs();
    if p == 0 {
        return size == 0;
    }
    if size == 0 {
        return false;
    }
    if Quote::MOST_PRICE < p {
        return false;
    }
    size <= Quote::MOST_SIZE
}

// A national side: "prices 1 to 999,999 alone, 0 for absent".
pub fn good_national(price: i32) -> bool
    ensures { result ≡ good_national price }
{
    (0 <= price) & (price.unsigned_abs() <= Quote::MOST_PRICE)
}

// Price p is beyond q by more than n: above it for a buyer, below it for a seller.
pub fn is_beyond(buy: bool, n: u64, p: u64, q: u64) -> bool
    ensures { result ≡ beyond buy n p q }
{
    if buy {
        n < p.saturating_sub(q)
    } else {
        n < q.saturating_sub(p)
    }
}

// The signed cents of a biased price.
pub fn cents(biased: u64) -> i64
    ensures { result ≡ cents_of (min biased 4611686018427387904) }
{
    let p = biased.min(Fill::MOST_BIASED);
    p as i64 - i64::from(Order::MOST_CENTS)
}
