// The open orders and responses: what changes them, in place. Each change says what the rules make of the whole state.
ghost use Rattle.std.specs.Prelude.{◌≡◌, true, false, not, ℕ, ◌+◌, ◌-◌, ◌<◌, ◌≤◌, eqb, length, get_or, drop};
ghost use Rattle.rules.specs.Basics.{pick};
ghost use Rattle.rules.specs.Book.{find, is_response, without, reduced, expired, released, released_all};
ghost use Rattle.rules.specs.State.{with_book};
ghost use Rattle.rules.specs.Execution.{settled};
ghost use Rattle.rules.specs.Step.{with_new};
ghost use Rattle.types.specs.View.{stage_of};
ghost use Rattle.state.specs.Layout as L;
ghost use Rattle.state.specs.View.{entry_of, open_count};
ghost use Rattle.state.specs.Stores.{Kept, put_longs, put_words};
ghost use Rattle.state.specs.Lent.{TellsBoth, Becomes, WordsBecome};
ghost use Rattle.book.specs.Kept.{KeptBy, Columns, Closing};
ghost use Rattle.book.specs.Questions.{FirstUnder, found_of};

use super::{entry_at, find, is_response};
use state::{Book, Entry, Longs, Stage, Words};

// ---- a new entry

// An entry stored at a place of the book.
fn put_entry(longs: &mut Longs, words: &mut Words, k: usize, e: Entry)
    requires { k < 64 }
    ensures { (longs.new ≡ put_longs longs.old k e) × (words.new ≡ put_words words.old k e) }
{
    longs[Book::ARRIVALS + k] = e.arrival;
    words[Book::IDS + k] = e.id;
    words[Book::PARTICIPANTS + k] = e.participant;
    words[Book::PRICES + k] = e.price;
    words[Book::UNITS + k] = e.units;
    words[Book::BUYS + k] = e.buy;
    words[Book::CUSTOMERS + k] = e.customer;
    words[Book::STAGES + k] = e.stage;
}

// A new entry is the last to have arrived; a full book stays as it is.
pub fn append(longs: &mut Longs, words: &mut Words, e: Entry)
    ensures { Becomes longs words (λ s. with_new s (entry_of e)) }
{
    let n = state::open_count(words);
    if n < Book::MOST_ENTRIES {
        put_entry(longs, words, n, e);
        words[Book::COUNT] = n as u32 + 1;
    }
}

// ---- who stays

// How many entries stand before the first that leaves.
fn staying(keep: &[bool; 64], n: usize) -> usize
    requires { n ≤ 64 }
    ensures { (result ≤ n) × ((i : ℕ) → i < result → get_or keep.now i false ≡ true) }
{
    for k in 0..n {
        if !keep[k] {
            return k;
        }
    }
    n
}

// The entries whose flag is set.
fn compact(longs: &mut Longs, words: &mut Words, keep: &[bool; 64])
    ensures { KeptBy (λ i. get_or keep.now i false) longs.old words.old longs.new words.new }
{
    let m = state::open_count(words);
    let mut w = staying(keep, m);
    for k in w..m {
        let e = entry_at(longs, words, k);
        put_entry(longs, words, w, e);
        w += usize::from(keep[k]);
    }
    words[Book::COUNT] = w as u32;
}

// Whether an entry from place k on has the number x in the column that begins at a.
fn any_from(words: &Words, a: usize, x: u32, k: usize) -> bool
    requires { (a ≤ L.stages) × (k ≤ open_count words.now) }
    ensures { result ≡ false → (i : ℕ) → k ≤ i → i < open_count words.now → eqb (get_or words.now (a + i) 0) x ≡ false }
{
    let m = state::open_count(words);
    words[a + k..a + m].contains(&x)
}

// Which entries have another number than x in the column that begins at a.
fn others(words: &Words, a: usize, x: u32) -> [bool; 64]
    requires { a ≤ L.stages }
    ensures { (i : ℕ) → i < open_count words.now → get_or result i false ≡ not (eqb (get_or words.now (a + i) 0) x) }
{
    let m = state::open_count(words);
    let mut keep = [false; 64];
    for k in 0..m {
        keep[k] = words[a + k] != x;
    }
    keep
}

// ---- one entry leaves

// In all columns of the words the N numbers behind place w, moved by one place.
fn shift_columns<const N: usize>(words: &mut Words, w: usize)
    requires { w + N < 64 }
    ensures { Columns w (w + N + 1) 7 words.old words.new }
{
    for q in 0..7 {
        let a = q * Book::MOST_ENTRIES + w;
        words[a..a + 1 + N].copy_within(1.., 0);
    }
}

// The N entries behind place w, moved by one place. A constant number, so that no column takes a loop.
fn shift<const N: usize>(longs: &mut Longs, words: &mut Words, w: usize)
    requires { w + N < 64 }
    ensures { Closing w (w + N) longs.old words.old longs.new words.new }
{
    let a = Book::ARRIVALS + w;
    longs[a..a + 1 + N].copy_within(1.., 0);
    shift_columns::<N>(words, w);
}

// The book without the entry at place k: those behind it move by one place, four at a time as long as there are four.
fn close_gap(longs: &mut Longs, words: &mut Words, k: usize)
    requires { k < open_count words.old }
    ensures { KeptBy (λ i. not (eqb i k)) longs.old words.old longs.new words.new }
{
    let m = state::open_count(words);
    let fours = (m - 1 - k) / 4;
    for i in 0..fours {
        shift::<4>(longs, words, k + 4 * i);
    }
    for w in k + 4 * fours..m - 1 {
        shift::<1>(longs, words, w);
    }
    words[Book::COUNT] = m as u32 - 1;
}

// The book without the entries under an id, of which the first is at place k; in every state that is reached it is the only one.
fn remove_from(longs: &mut Longs, words: &mut Words, id: u32, k: usize)
    requires { FirstUnder id words.old k × (k < open_count words.old) }
    ensures { Becomes longs words (λ s. with_book s (without id s.book)) }
{
    if any_from(words, Book::IDS, id, k + 1) {
        let keep = others(words, Book::IDS, id);
        compact(longs, words, &keep);
        return;
    }
    close_gap(longs, words, k);
}

// "Ids are free again once their entry is .. cancelled".
pub fn remove(longs: &mut Longs, words: &mut Words, id: u32)
    ensures { Becomes longs words (λ s. with_book s (without id s.book)) }
{
    if let Some(k) = find(words, id) {
        remove_from(longs, words, id, k);
    }
}

// M-105: the entry under an id has so many open units from now on, and "keeps its arrival number".
pub fn reduce(words: &mut Words, id: u32, units: u32)
    ensures { WordsBecome words (λ s. with_book s (reduced id units s.book)) }
{
    if let Some(k) = find(words, id) {
        words[Book::UNITS + k] = units;
    }
}

// The entry under an id, if there is one; and the book without it.
pub fn take_out(longs: &mut Longs, words: &mut Words, id: u32) -> Option<Entry>
    ensures { TellsBoth longs.old words.old (λ s. find id s.book ≡ found_of result) × Becomes longs words (λ s. with_book s (without id s.book)) }
{
    let k = find(words, id)?;
    let e = entry_at(longs, words, k);
    remove_from(longs, words, id, k);
    Some(e)
}

// ---- after a turn

// The units of an entry after a turn: of the order itself less what it took, of another less what it gave.
fn units_after(own: bool, units: u32, took: u32, gave: u32) -> u32
    ensures { result ≡ units - pick own took gave }
{
    if own {
        units.saturating_sub(took)
    } else {
        units.saturating_sub(gave)
    }
}

// The units after a turn; what the entry at place k gave stands at k + 2.
fn spend(words: &mut Words, gave: &[u32; 66], id: u32, took: u32)
    ensures { Kept L.units L.buys words.old words.new × ((i : ℕ) → i < open_count words.old → get_or words.new (L.units + i) 0 ≡ get_or words.old (L.units + i) 0 - pick (eqb (get_or words.old (L.ids + i) 0) id) took (get_or gave.now (i + 2) 0)) }
{
    let m = state::open_count(words);
    for k in 0..m {
        words[Book::UNITS + k] = units_after(
            words[Book::IDS + k] == id,
            words[Book::UNITS + k],
            took,
            gave[k + 2],
        );
    }
}

// The stage of an entry after a turn: the order's own changes.
fn stage_after(own: bool, stage: u32, after: u32) -> u32
    ensures { result ≡ pick own after stage }
{
    if own { after } else { stage }
}

// The stages after a turn.
fn restage(words: &mut Words, id: u32, stage: u32)
    ensures { Kept L.stages L.count words.old words.new × ((i : ℕ) → i < open_count words.old → get_or words.new (L.stages + i) 0 ≡ pick (eqb (get_or words.old (L.ids + i) 0) id) stage (get_or words.old (L.stages + i) 0)) }
{
    let m = state::open_count(words);
    for k in 0..m {
        words[Book::STAGES + k] = stage_after(
            words[Book::IDS + k] == id,
            words[Book::STAGES + k],
            stage,
        );
    }
}

// The entries with units left; most often that is all of them.
fn drop_filled(longs: &mut Longs, words: &mut Words)
    ensures { KeptBy (λ i. not (eqb (get_or words.old (L.units + i) 0) 0)) longs.old words.old longs.new words.new }
{
    if any_from(words, Book::UNITS, 0, 0) {
        let keep = others(words, Book::UNITS, 0);
        compact(longs, words, &keep);
    }
}

// The book after the turn of an order: each entry less what it gave, the order less what it took and at its new stage, and none that is filled.
pub fn settle(
    longs: &mut Longs,
    words: &mut Words,
    gave: &[u32; 66],
    id: u32,
    took: u32,
    stage: u32,
)
    ensures { Becomes longs words (λ s. with_book s (settled id took (stage_of stage) s.book (drop 2 gave.now))) }
{
    spend(words, gave, id, took);
    restage(words, id, stage);
    drop_filled(longs, words);
}

// ---- after an auction

// Which entries are orders.
fn orders(words: &Words) -> [bool; 64]
    ensures { (i : ℕ) → i < open_count words.now → get_or result i false ≡ not (is_response (stage_of (get_or words.now (L.stages + i) 0))) }
{
    let m = state::open_count(words);
    let mut keep = [false; 64];
    for k in 0..m {
        keep[k] = !is_response(words[Book::STAGES + k]);
    }
    keep
}

// "remainders are held".
fn released_stage(stage: u32) -> u32
    ensures { stage_of result ≡ released (stage_of stage) }
{
    if stage == Stage::QUEUED {
        Stage::HELD
    } else {
        stage
    }
}

// "remainders are held", in the whole column.
fn release(words: &mut Words)
    ensures { Kept L.stages L.count words.old words.new × ((i : ℕ) → i < open_count words.old → stage_of (get_or words.new (L.stages + i) 0) ≡ released (stage_of (get_or words.old (L.stages + i) 0))) }
{
    let m = state::open_count(words);
    for k in 0..m {
        words[Book::STAGES + k] = released_stage(words[Book::STAGES + k]);
    }
}

// "remainders are held; all responses expire".
pub fn close(longs: &mut Longs, words: &mut Words)
    ensures { Becomes longs words (λ s. with_book s (released_all (expired s.book))) }
{
    let keep = orders(words);
    compact(longs, words, &keep);
    release(words);
}
