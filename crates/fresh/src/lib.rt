// Making both tables fresh: all zero, or 14 and nothing changed.
#![tactic(auto)]

ghost use Rattle.std.specs.Prelude.{◌≡◌};
ghost use Rattle.fresh.specs.Fresh.{MakesFresh};

use refusals::Refusal;

pub fn make_fresh(directory: &mut [u64], book: &mut [u64]) -> Result<(), Refusal>
    ensures { MakesFresh directory.old book.old directory.new book.new result }
{
    let good = directory::good_length(directory.len());
    if !good {
        return Err(Refusal::Shape);
    }
    let k = book::words_of(book.len());
    if k == 0 {
        return Err(Refusal::Shape);
    }
    directory.fill(0);
    book.fill(0);
    Ok(())
}
