// The calls that a program in C or Rust links, under the names of the header: those of `ladlemoss`, with its contracts. (Twice nine calls:
// exported names stand in a static library of their own.)
#![tactic(auto)]

ghost use Rattle.std.specs.Prelude.{◌≡◌};
ghost use Rattle.accounts.specs.Accounts.{order_asked};
ghost use Rattle.apply.specs.Apply.{applied};
ghost use Rattle.census.specs.Census.{count_asked};
ghost use Rattle.ladlemoss.specs.Face.{Answers, Freshens, part_row};
ghost use Rattle.levels.specs.Levels.{best_of, level_of, next_of};
ghost use Rattle.numbers.specs.Shown.{answer_number, answer_row};
ghost use Rattle.reader.specs.Read.{answer};
ghost use Rattle.symbol.specs.Symbol.{symbol_part};
ghost use Rattle.replies.specs.Replies.{account_number, account_row, count_number, count_row, level_row, quote_number, quote_row};

#[unsafe(no_mangle)]
pub extern "C" fn ladlemoss_read(bytes: &[u8], out: &mut [u64; 18]) -> u8
    ensures { (result ≡ answer_number (answer bytes.now)) × (out.new ≡ answer_row (answer bytes.now)) }
{
    ladlemoss::ladlemoss_read(bytes, out)
}

#[unsafe(no_mangle)]
pub extern "C" fn ladlemoss_fresh(directory: &mut [u64], book: &mut [u64]) -> u8
    ensures { Freshens directory.old book.old result directory.new book.new }
{
    ladlemoss::ladlemoss_fresh(directory, book)
}

#[unsafe(no_mangle)]
pub extern "C" fn ladlemoss_apply(
    directory: &mut [u64],
    book: &mut [u64],
    bytes: &[u8],
    out: &mut [u64; 18],
    figures: &mut [u64; 10],
) -> u8
    ensures { Answers (applied directory.old book.old bytes.now) result directory.new book.new out.new figures.new }
{
    ladlemoss::ladlemoss_apply(directory, book, bytes, out, figures)
}

#[unsafe(no_mangle)]
pub extern "C" fn ladlemoss_order(book: &[u64], reference: u64, out: &mut [u64; 8]) -> u8
    ensures { (result ≡ account_number (order_asked book.now reference)) × (out.new ≡ account_row (order_asked book.now reference)) }
{
    ladlemoss::ladlemoss_order(book, reference, out)
}

#[unsafe(no_mangle)]
pub extern "C" fn ladlemoss_level(
    book: &[u64],
    locate: u16,
    side: u8,
    price: u32,
    out: &mut [u64; 2],
) -> u8
    ensures { (result ≡ quote_number (level_of book.now locate side price)) × (out.new ≡ level_row (level_of book.now locate side price)) }
{
    ladlemoss::ladlemoss_level(book, locate, side, price, out)
}

#[unsafe(no_mangle)]
pub extern "C" fn ladlemoss_best(book: &[u64], locate: u16, side: u8, out: &mut [u64; 4]) -> u8
    ensures { (result ≡ quote_number (best_of book.now locate side)) × (out.new ≡ quote_row (best_of book.now locate side)) }
{
    ladlemoss::ladlemoss_best(book, locate, side, out)
}

#[unsafe(no_mangle)]
pub extern "C" fn ladlemoss_next(
    book: &[u64],
    locate: u16,
    side: u8,
    price: u32,
    out: &mut [u64; 4],
) -> u8
    ensures { (result ≡ quote_number (next_of book.now locate side price)) × (out.new ≡ quote_row (next_of book.now locate side price)) }
{
    ladlemoss::ladlemoss_next(book, locate, side, price, out)
}

#[unsafe(no_mangle)]
pub extern "C" fn ladlemoss_live(book: &[u64], out: &mut [u64; 1]) -> u8
    ensures { (result ≡ count_number (count_asked book.now)) × (out.new ≡ count_row (count_asked book.now)) }
{
    ladlemoss::ladlemoss_live(book, out)
}

#[unsafe(no_mangle)]
pub extern "C" fn ladlemoss_symbol(directory: &[u64], bytes: &[u8], out: &mut [u64; 2])
    ensures { out.new ≡ part_row (symbol_part directory.now bytes.now) }
{
    ladlemoss::ladlemoss_symbol(directory, bytes, out);
}
