// Document 01, "Execution", and document 02, M-103: late legs, and what an auction keeps of the legs.
ghost use Rattle.std.specs.Prelude.{◌≡◌, List, [], ◌∷◌, ℕ};
ghost use Rattle.rules.specs.Auction.{are_late, up_to_kept, leading, less_kept};
ghost use Rattle.types.specs.View.{derived_of};
ghost use Rattle.state.specs.View.{pending_of, auction_of};
ghost use Rattle.execution.specs.Kept.{is_kept, AuctionBecomes};

use state::{Auction, Longs, Words};
use types::Derived;

// "Legs are late if their price is better, for the order, than the same derived price (bid or ask) when the auction began, or none existed then".
fn are_late(longs: &Longs, buy: bool, price: u64) -> bool
    ensures { (words : List ℕ) → result ≡ are_late (pending_of longs.now words).start buy price }
{
    if longs[Auction::START_COUNT] == 0 {
        return true;
    }
    let start = longs[Auction::START_PRICES];
    if buy { price < start } else { start < price }
}

// Whether a price is kept.
fn is_kept(longs: &Longs, price: u64) -> bool
    ensures { result ≡ is_kept longs.now price }
{
    if longs[Auction::START_COUNT] == 0 {
        return false;
    }
    longs[Auction::START_PRICES] == price
}

// "only the smallest number of units it has shown since the start is rank L": of the price that is kept at most that many, of another all.
fn up_to_kept(longs: &Longs, words: &Words, d: Derived) -> u32
    ensures { result ≡ up_to_kept (pending_of longs.now words.now).start (derived_of d) }
{
    if is_kept(longs, d.price) {
        words[Auction::START_UNITS].min(d.units)
    } else {
        d.units
    }
}

// How many units of the legs' price are not late; "Better and worse prices rank as before".
pub fn leading(longs: &Longs, words: &Words, buy: bool, d: Derived) -> u32
    ensures { result ≡ leading (auction_of longs.now words.now) buy (derived_of d) }
{
    if words[Auction::PENDING] == 0 {
        return d.units;
    }
    if are_late(longs, buy, d.price) {
        return 0;
    }
    up_to_kept(longs, words, d)
}

// "What one queue order takes from rank L is gone for the next".
pub fn less_kept(longs: &Longs, words: &mut Words, d: Derived, taken: u32)
    ensures { AuctionBecomes longs words (λ a. less_kept a (derived_of d ∷ []) (taken ∷ [])) }
{
    if words[Auction::PENDING] == 0 {
        return;
    }
    if is_kept(longs, d.price) {
        words[Auction::START_UNITS] = words[Auction::START_UNITS].saturating_sub(taken);
    }
}
