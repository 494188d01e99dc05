// Document 01, "Order and auction life": what an accepted message sets off. Each phase is a sequence of turns in the lent state, their records written into the lent list as they come.
ghost use Rattle.std.specs.Prelude.{◌≡◌, ◌&&◌, not};
ghost use Rattle.rules.specs.Basics.{pick};
ghost use Rattle.rules.specs.Book.{any, is_live};
ghost use Rattle.rules.specs.Execution.{legs_pass, ready};
ghost use Rattle.rules.specs.Step.{go_live, pass_legs, steps, closed, ending, quiet};
ghost use Rattle.types.specs.View.{stage_of, derived_of};
ghost use Rattle.state.specs.View.{flag};
ghost use Rattle.state.specs.Lent.{Tells, Becomes};
ghost use Rattle.execution.specs.Plays.{Plays};
ghost use Rattle.execution.specs.Reach.{at_or_through};

use execution::Mode;
use state::{Auction, Book, Longs, Words};
use types::Derived;

// ---- no auction pending

// "held orders become live in arrival order, each executing first".
fn go_live(longs: &mut Longs, words: &mut Words, list: &mut [u64], at: usize) -> usize
    ensures { Plays longs words list at result go_live }
{
    if !book::any_held(words) {
        return at;
    }
    let mut ids = [0u32; 64];
    let n = book::held_ids(words, &mut ids);
    execution::serve(longs, words, list, at, Mode::GoingLive as u8, &ids, n)
}

// "live orders at or through the derived contra price": the ask for a buyer, the bid for a seller.
fn reaches(stage: u32, side: u32, limit: u32, ask: Derived, bid: Derived) -> bool
    ensures { result ≡ (is_live (stage_of stage) && at_or_through (flag side) limit (pick (flag side) (derived_of ask) (derived_of bid))) }
{
    let live = book::is_live(stage);
    if state::is_set(side) {
        live & execution::at_or_through(true, limit, ask)
    } else {
        live & execution::at_or_through(false, limit, bid)
    }
}

// Whether no order is ready in the legs' pass.
fn none_reaches(words: &Words) -> bool
    ensures { Tells words (λ s. result ≡ not (any (ready legs_pass s) s.book)) }
{
    let ask = quotes::derived(words, true);
    let bid = quotes::derived(words, false);
    let m = state::open_count(words);
    let mut seen = false;
    for k in 0..m {
        seen = seen
            | reaches(
                words[Book::STAGES + k],
                words[Book::BUYS + k],
                words[Book::PRICES + k],
                ask,
                bid,
            );
    }
    !seen
}

// "then live orders at or through the derived contra price execute against the legs, buyers before sellers".
fn pass_legs(longs: &mut Longs, words: &mut Words, list: &mut [u64], at: usize) -> usize
    ensures { Plays longs words list at result pass_legs }
{
    if none_reaches(words) {
        return at;
    }
    let mut buyers = [0u32; 64];
    let mut sellers = [0u32; 64];
    let n = book::live_ids(words, true, &mut buyers);
    let m = book::live_ids(words, false, &mut sellers);
    let w = execution::serve(longs, words, list, at, Mode::LegsPass as u8, &buyers, n);
    execution::serve(longs, words, list, w, Mode::LegsPass as u8, &sellers, m)
}

// "With no auction pending, after each accepted message".
fn steps(longs: &mut Longs, words: &mut Words, list: &mut [u64], at: usize) -> usize
    ensures { Plays longs words list at result steps }
{
    let w = go_live(longs, words, list, at);
    pass_legs(longs, words, list, w)
}

// "During an auction nothing else trades"; with none pending the steps run.
pub fn quiet(longs: &mut Longs, words: &mut Words, list: &mut [u64], at: usize) -> usize
    ensures { Plays longs words list at result (λ s. quiet s s.auction) }
{
    if state::is_pending(words) {
        return at;
    }
    steps(longs, words, list, at)
}

// ---- the end of an auction

// "remainders are held; all responses expire", and the auction is over.
fn close(longs: &mut Longs, words: &mut Words)
    ensures { Becomes longs words closed }
{
    book::close(longs, words);
    words[Auction::PENDING] = 0;
}

// "At the end queue orders execute by price, then arrival; remainders are held; all responses expire; then the steps for no pending auction run".
pub fn ending(longs: &mut Longs, words: &mut Words, list: &mut [u64], at: usize) -> usize
    ensures { Plays longs words list at result ending }
{
    let mut ids = [0u32; 64];
    let n = book::queue_ids(words, &mut ids);
    let w = execution::serve(longs, words, list, at, Mode::FromQueue as u8, &ids, n);
    close(longs, words);
    steps(longs, words, list, w)
}
