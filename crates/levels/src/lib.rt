// The questions about levels: one pass over the live slots of the book, by map words, for the best price of those wanted. It is
// lent the book alone.
#![tactic(auto)]

ghost use Rattle.std.specs.Prelude.{◌≡◌, ℕ, ◌+◌, ◌*◌, ◌<◌, ◌≤◌, min};
ghost use Rattle.orders.specs.Order.{held};
ghost use Rattle.slots.specs.Stored.{held_at};
ghost use Rattle.levels.specs.Ticks.{ticks_to};
ghost use Rattle.levels.specs.Visits.{joined, visited};
ghost use Rattle.levels.specs.Glances.{Based, glanced, lettered, room_of};

pub mod questions;

use book::Book;
use kinds::{Locate, Side, Slot};

// A price with what remains of the orders that stand there, and how many they are.
#[derive(Drop)]
pub struct Level {
    pub price: u32,
    pub shares: u64,
    pub orders: u64,
}

// The orders that a pass looks for: of a stock's side, at prices not before `from` and below `to`, in ticks from the best possible.
#[derive(Clone, Copy)]
pub struct Wanted {
    pub locate: Locate,
    pub side: Side,
    pub from: u64,
    pub to: u64,
}

// The best price so far, in ticks from the best possible, with the shares and the orders that stand there.
#[derive(Drop)]
pub struct Best {
    pub ticks: u64,
    pub shares: u64,
    pub orders: u64,
}

// What a live slot is to a pass: unsound, nothing, or an order wanted at a price no worse than the best so far, so many ticks from
// the best possible and with so many shares. (Three cases with names: an Option in an Option would name none.)
#[derive(Drop)]
pub enum Glimpse {
    Unsound,
    Other,
    Stands(u64, u32),
}

// How many ticks a price is from the best one possible.
fn ticks_to(side: Side, price: u32) -> u64
    ensures { (result ≡ ticks_to side price) × (result < 4294967296) }
{
    match side {
        Side::Buy => 4294967295 - (price as u64),
        Side::Sell => price as u64,
    }
}

// Where the ticks of what is wanted begin, in one number with the locate and the side as a slot has them; any number where they
// begin past all prices.
fn base_of(w: Wanted) -> u64
    ensures { Based w result }
{
    let locate = w.locate;
    let side = w.side;
    if 4294967296 <= w.from {
        return 0;
    }
    ((locate.0 as u64) * 256 + side.byte()) * 1099511627776 + w.from
}

// How many ticks from there on are wanted and no worse than the tick `most`.
fn room_of(w: Wanted, most: u64) -> u64
    ensures { result ≡ room_of w most }
{
    let from = w.from;
    let to = w.to.min(4294967296);
    let past = most.min(4294967296) + 1;
    let end = to.min(past);
    if end <= from {
        return 0;
    }
    end - from
}

// The side, the attribution and the low byte of a slot's fourth number, one after the other.
fn spelled(n3: u64) -> bool
    ensures { result ≡ lettered n3 }
{
    let byte = n3 / 1099511627776 % 256;
    let sided = Side::good(byte);
    if !sided {
        return false;
    }
    if n3 % 256 != 0 {
        return false;
    }
    text::text4((n3 / 256 % 4294967296) as u32) == 0
}

// B or S with NSDQ and a low byte of 0, as most orders have, are known by one compare that does not branch on the side.
fn lettered(n3: u64) -> bool
    ensures { result ≡ lettered n3 }
{
    if n3 % 281474976710656 == 72904171868416 + n3 / 1099511627776 % 2 * 18691697672192 {
        return true;
    }
    spelled(n3)
}

// What a live slot with these numbers is to a pass. Whether it is wanted, and no worse than the tick `most`, is one compare:
// branches on the locate, the side and the price would often be predicted wrongly.
fn weigh(n1: u64, n2: u64, n3: u64, w: Wanted, most: u64, base: u64, room: u64) -> Glimpse
    requires { Based w base × (room ≡ room_of w most) }
    ensures { (n0 : ℕ) → result ≡ glanced w most (held n0 n1 n2 n3) }
{
    let added = n1 % 4294967296;
    let gone = n2 / 4294967296 + n2 % 4294967296;
    if 8589934596294967295 < n1 {
        return Glimpse::Unsound;
    }
    if n3 < 281474976710656 {
        return Glimpse::Unsound;
    }
    if added <= gone {
        return Glimpse::Unsound;
    }
    let good = lettered(n3);
    if !good {
        return Glimpse::Unsound;
    }
    let side = w.side;
    let ticks = ticks_to(side, (n1 / 4294967296) as u32);
    let past = std::num::wrapping_sub_u64(n3 - n3 % 1099511627776 + ticks, base);
    if past < room {
        return Glimpse::Stands(ticks, (added - gone) as u32);
    }
    Glimpse::Other
}

// What a live slot is to a pass.
fn glance(book: Book<'_>, slot: Slot, w: Wanted, most: u64, base: u64, room: u64) -> Glimpse
    requires { (slot.0 < 64 * book.k) × Based w base × (room ≡ room_of w most) }
    ensures { result ≡ glanced w most (held_at book.entry.numbers.now book.entry.k slot.0) }
{
    let n1 = book.number_at(slot, 1);
    let n2 = book.number_at(slot, 2);
    let n3 = book.number_at(slot, 3);
    weigh(n1, n2, n3, w, most, base, room)
}

// The best so far, with one more order that is no worse.
fn join(best: Best, ticks: u64, shares: u32) -> Best
    requires { (best.shares ≤ 1000000000000000000) × (best.orders ≤ 1000000000000000000) × (ticks ≤ best.ticks) }
    ensures { result ≡ joined best ticks shares }
{
    if ticks < best.ticks {
        return Best {
            ticks,
            shares: shares as u64,
            orders: 1,
        };
    }
    Best {
        ticks,
        shares: best.shares + (shares as u64),
        orders: best.orders + 1,
    }
}

// The pass over the live slots of map number j, by its one bits; none where one is unsound.
fn scan_word(book: Book<'_>, j: usize, w: Wanted, best: Best) -> Option<Best>
    requires { (j < book.k) × (visited w book.numbers.now book.k (64 * j) ≡ Some best) }
    ensures { result ≡ visited w book.entry.numbers.now book.entry.k (64 * (j + 1)) }
{
    let base = base_of(w);
    let mut now = best;
    let mut room = room_of(w, now.ticks);
    let numbers = book.numbers;
    let mut m = numbers[j];
    while m != 0 {
        let t = m.trailing_zeros() as usize;
        let glimpse = glance(book, Slot(64 * j + t), w, now.ticks, base, room);
        match glimpse {
            Glimpse::Unsound => {
                return None;
            }
            Glimpse::Other => {}
            Glimpse::Stands(ticks, shares) => {
                now = join(now, ticks, shares);
                room = room_of(w, now.ticks);
            }
        }
        m = m & (m - 1);
    }
    Some(now)
}

// The pass over all live slots; none where one is unsound.
fn scan(book: Book<'_>, w: Wanted) -> Option<Best>
    ensures { result ≡ visited w book.entry.numbers.now book.entry.k (64 * book.entry.k) }
{
    let mut best = Best {
        ticks: w.to,
        shares: 0,
        orders: 0,
    };
    for j in 0..book.k {
        best = scan_word(book, j, w, best)?;
    }
    Some(best)
}
