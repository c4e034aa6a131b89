// What the desk may ask of a book: a level, the best level of a stock's side, and the next one worse than a price; and what going
// through all levels asks, the first one from a tick on. Each is one pass, and changes nothing.
ghost use Rattle.std.specs.Prelude.{◌≡◌, ◌<◌, length};
ghost use Rattle.kinds.specs.Sides.{side_of};
ghost use Rattle.book.specs.Book.{words_of};
ghost use Rattle.levels.specs.Levels.{best_of, checked, level_of, next_of};
ghost use Rattle.levels.specs.Ticks.{level_from, price_at};
ghost use Rattle.levels.specs.Asks.{scanned};

use crate::{Best, Level, Wanted, scan, ticks_to};
use book::Book;
use kinds::{Locate, Side};
use refusals::Refusal;

// The price so many ticks from the best one possible.
fn price_at(side: Side, ticks: u64) -> u32
    requires { ticks < 4294967296 }
    ensures { result ≡ price_at side ticks }
{
    match side {
        Side::Buy => (4294967295 - ticks) as u32,
        Side::Sell => ticks as u32,
    }
}

// The pass for a side that was given as a byte: 14, 4 and 13 in this order, or what it saw.
fn ask(book: &[u64], byte: u8, w: Wanted) -> Result<Best, Refusal>
    ensures { result ≡ scanned w book.now byte }
{
    let Some(whole) = Book::of(book) else {
        return Err(Refusal::Shape);
    };
    let good = Side::good(byte as u64);
    if !good {
        return Err(Refusal::Field);
    }
    scan(whole, w).ok_or(Refusal::Book)
}

// The best level of a stock's side not before the tick `from`, counted from the best price possible.
pub fn first_from(
    book: &[u64],
    locate: Locate,
    byte: u8,
    from: u64,
) -> Result<Option<Level>, Refusal>
    ensures { result ≡ checked book.now byte (level_from book.now (words_of (length book.now)) locate.0 (side_of byte) from) }
{
    let side = Side::of(byte as u64);
    let best = ask(
        book,
        byte,
        Wanted {
            locate,
            side,
            from,
            to: 4294967296,
        },
    )?;
    let ticks = best.ticks;
    if 4294967296 <= ticks {
        return Ok(None);
    }
    Ok(Some(Level {
        price: price_at(side, ticks),
        shares: best.shares,
        orders: best.orders,
    }))
}

// What remains of the orders at a price, and how many they are; 0 and 0 where none stands.
pub fn level(book: &[u64], locate: Locate, side: u8, price: u32) -> Result<Option<Level>, Refusal>
    ensures { result ≡ level_of book.now locate.0 side price }
{
    let own = Side::of(side as u64);
    let from = ticks_to(own, price);
    let there = ask(
        book,
        side,
        Wanted {
            locate,
            side: own,
            from,
            to: from + 1,
        },
    )?;
    Ok(Some(Level {
        price,
        shares: there.shares,
        orders: there.orders,
    }))
}

// The highest buy, or the lowest sell, with what stands there.
pub fn best(book: &[u64], locate: Locate, side: u8) -> Result<Option<Level>, Refusal>
    ensures { result ≡ best_of book.now locate.0 side }
{
    first_from(book, locate, side, 0)
}

// The next level below a price for buys, above it for sells; the price need not be a level.
pub fn next(book: &[u64], locate: Locate, side: u8, price: u32) -> Result<Option<Level>, Refusal>
    ensures { result ≡ next_of book.now locate.0 side price }
{
    let own = Side::of(side as u64);
    let past = ticks_to(own, price) + 1;
    first_from(book, locate, side, past)
}
