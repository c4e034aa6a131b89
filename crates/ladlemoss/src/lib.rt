// The calls of the library with their answers as numbers. Each has the contract of the call below it.
#![tactic(auto)]

ghost use Rattle.std.specs.Prelude.{◌≡◌};
ghost use Rattle.accounts.specs.Accounts.{order_asked};
ghost use Rattle.apply.specs.Apply.{applied};
ghost use Rattle.census.specs.Census.{count_asked};
ghost use Rattle.ladlemoss.specs.Face.{Answers, Freshens, part_row};
ghost use Rattle.levels.specs.Levels.{best_of, level_of, next_of};
ghost use Rattle.numbers.specs.Shown.{answer_number, answer_row};
ghost use Rattle.reader.specs.Read.{answer};
ghost use Rattle.symbol.specs.Symbol.{symbol_part};
ghost use Rattle.replies.specs.Replies.{account_number, account_row, count_number, count_row, level_row, quote_number, quote_row};

use kinds::{Locate, Reference};

// Reads one message: the result is 01's number, and the 18 numbers of its fields are left in out, all 0 for a refusal.
pub fn ladlemoss_read(bytes: &[u8], out: &mut [u64; 18]) -> u8
    ensures { (result ≡ answer_number (answer bytes.now)) × (out.new ≡ answer_row (answer bytes.now)) }
{
    numbers::write(reader::read(bytes), out)
}

// Makes both tables fresh: the result is 0 and both are all zero, or 14 and both are as they were.
pub fn ladlemoss_fresh(directory: &mut [u64], book: &mut [u64]) -> u8
    ensures { Freshens directory.old book.old result directory.new book.new }
{
    match fresh::make_fresh(directory, book) {
        Ok(()) => 0,
        Err(refusal) => u8::from(refusal),
    }
}

// Applies one message: the result is 01's number; the 18 numbers of its fields are left in out and the ten figures of the orders it
// concerns in figures, all 0 for a refusal, which changes neither table.
pub fn ladlemoss_apply(
    directory: &mut [u64],
    book: &mut [u64],
    bytes: &[u8],
    out: &mut [u64; 18],
    figures: &mut [u64; 10],
) -> u8
    ensures { Answers (applied directory.old book.old bytes.now) result directory.new book.new out.new figures.new }
{
    let outcome = apply::apply(directory, book, bytes);
    outcomes::write(outcome, out, figures)
}

// The account of the order with a reference: added, executed, cancelled, remaining, locate, side, price and attribution.
pub fn ladlemoss_order(book: &[u64], reference: u64, out: &mut [u64; 8]) -> u8
    ensures { (result ≡ account_number (order_asked book.now reference)) × (out.new ≡ account_row (order_asked book.now reference)) }
{
    replies::account(accounts::order(book, Reference(reference)), out)
}

// A level's total and count.
pub fn ladlemoss_level(book: &[u64], locate: u16, side: u8, price: u32, out: &mut [u64; 2]) -> u8
    ensures { (result ≡ quote_number (level_of book.now locate side price)) × (out.new ≡ level_row (level_of book.now locate side price)) }
{
    replies::level(
        levels::questions::level(book, Locate(locate), side, price),
        out,
    )
}

// The best level of a stock's side: 1, price, total and count, or four zeros where there is none.
pub fn ladlemoss_best(book: &[u64], locate: u16, side: u8, out: &mut [u64; 4]) -> u8
    ensures { (result ≡ quote_number (best_of book.now locate side)) × (out.new ≡ quote_row (best_of book.now locate side)) }
{
    replies::quote(levels::questions::best(book, Locate(locate), side), out)
}

// The next level worse than a price, in the form of the best.
pub fn ladlemoss_next(book: &[u64], locate: u16, side: u8, price: u32, out: &mut [u64; 4]) -> u8
    ensures { (result ≡ quote_number (next_of book.now locate side price)) × (out.new ≡ quote_row (next_of book.now locate side price)) }
{
    replies::quote(
        levels::questions::next(book, Locate(locate), side, price),
        out,
    )
}

// How many slots are live.
pub fn ladlemoss_live(book: &[u64], out: &mut [u64; 1]) -> u8
    ensures { (result ≡ count_number (count_asked book.now)) × (out.new ≡ count_row (count_asked book.now)) }
{
    replies::count(census::live_count(book), out)
}

// Where the unpadded symbol of a message starts in it and how long it is; 0 and 0 where it has none that is registered.
pub fn ladlemoss_symbol(directory: &[u64], bytes: &[u8], out: &mut [u64; 2])
    ensures { out.new ≡ part_row (symbol_part directory.now bytes.now) }
{
    let part = symbol::part_of(directory, bytes);
    *out = [part.start as u64, part.len as u64];
}
