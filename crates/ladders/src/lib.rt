// The levels of a book as records: by rising locate, the buys and then the sells of each, best first; as many as a buffer holds, and
// the rung to go on from. It is lent the book alone, and asks it one question a level.
#![tactic(auto)]

ghost use Rattle.std.specs.Prelude.{◌≡◌, ◌/◌, ◌<◌, length};
ghost use Rattle.levels.specs.Ticks.{ticks_to};
ghost use Rattle.records.specs.Append.{appended, reach};
ghost use Rattle.ladders.specs.Ladders.{first_of, fill_leaves, kind_of, locate_at, shown, side_at};
ghost use Rattle.ladders.specs.Search.{next_from, on_side, quote_at, record_row};

use kinds::{Locate, Side};
use levels::Level;
use refusals::Refusal;

// The rung to go on from, and how many bytes of records were written.
#[derive(Drop)]
pub struct Filled {
    pub rung: u64,
    pub written: usize,
}

// The rungs of a side, one for each price, and those of a stock: its buys' and then its sells'. (A rung is one number, as the caller keeps it.)
const SIDE_RUNGS: u64 = 4_294_967_296;

const STOCK_RUNGS: u64 = 2 * SIDE_RUNGS;

// The first of a locate's rungs.
pub fn first_of(locate: u16) -> u64
    ensures { result ≡ first_of locate }
{
    u64::from(locate) * STOCK_RUNGS
}

fn locate_at(p: u64) -> u16
    requires { p < 562949953421312 }
    ensures { result ≡ locate_at p }
{
    (p / STOCK_RUNGS) as u16
}

fn side_at(p: u64) -> Side
    ensures { result ≡ side_at p }
{
    if p / SIDE_RUNGS % 2 == 0 {
        Side::Buy
    } else {
        Side::Sell
    }
}

// The kind of a side's records.
fn kind_of(side: Side) -> u8
    ensures { result ≡ kind_of side }
{
    match side {
        Side::Buy => b'b',
        Side::Sell => b's',
    }
}

// The rung of a price on the side whose rung p is.
fn rung_at(p: u64, price: u32) -> u64
    ensures { result ≡ on_side p (ticks_to (side_at p) price) }
{
    let ticks = match side_at(p) {
        Side::Buy => u32::MAX - price,
        Side::Sell => price,
    };
    p / SIDE_RUNGS * SIDE_RUNGS + u64::from(ticks)
}

// The best level of a rung's side, not before the rung: asked by the side's letter, as the desk asks.
fn quote_at(book: &[u64], p: u64) -> Result<Option<Level>, Refusal>
    requires { p < 562949953421312 }
    ensures { result ≡ quote_at book.now p }
{
    let letter = side_at(p).byte() as u8;
    levels::questions::first_from(book, Locate(locate_at(p)), letter, p % SIDE_RUNGS)
}

// The next level from a rung on, with its own rung, below those of the locate `locates`; none where the book is refused. It goes side by
// side, and not by a range of sides: the first may be entered at any of its rungs.
fn next_from(book: &[u64], from: u64, locates: u16) -> Option<(u64, Level)>
    ensures { result ≡ next_from book.now from (first_of locates) }
{
    let to = first_of(locates);
    let mut rung = from;
    while rung < to {
        let Ok(quote) = quote_at(book, rung) else {
            return None;
        };
        if let Some(level) = quote {
            return Some((rung_at(rung, level.price), level));
        }
        rung = (rung / SIDE_RUNGS + 1) * SIDE_RUNGS;
    }
    None
}

// The record of a level behind the first `at` bytes of out (lent, no Vec), and where it ends.
fn put(p: u64, level: Level, out: &mut [u8], at: usize) -> usize
    requires { p < 562949953421312 }
    ensures { (result ≡ reach out.old at (record_row p level)) × (out.new ≡ appended out.old at (record_row p level)) }
{
    let kind = kind_of(side_at(p));
    let mut row = [0u8; 19];
    records::level(
        &mut row,
        kind,
        locate_at(p),
        level.price,
        level.shares,
        level.orders,
    );
    records::append(out, at, &row)
}

// As many levels as out has room for, from the rung `from` on and below those of the locate `locates`: while there is room, and by no index.
pub fn fill(book: &[u64], from: u64, locates: u16, out: &mut [u8]) -> Filled
    ensures { record { filled = result; out = out.new } ≡ fill_leaves out.old (shown (length out.old / 19) book.now from (first_of locates)) }
{
    let mut rung = from;
    let mut written = 0;
    while 19 <= out.len() - written {
        let Some((found, level)) = next_from(book, rung, locates) else {
            return Filled {
                rung: first_of(locates),
                written,
            };
        };
        written = put(found, level, out, written);
        rung = found + 1;
    }
    Filled { rung, written }
}
