// The live count: the one bits of the map's numbers, counted. It is lent the book alone, and nothing in a slot matters to it.
#![tactic(auto)]

ghost use Rattle.std.specs.Prelude.{◌≡◌};
ghost use Rattle.book.specs.Shape.{Sized};
ghost use Rattle.census.specs.Census.{count_asked, live_count};

use book::Book;
use refusals::Refusal;

// The one bits of all map numbers; not of a `Book`, since the proof at the chain's end is told what fits of an argument alone.
fn count_live(numbers: &[u64], k: usize) -> u64
    requires { Sized numbers.now k }
    ensures { result ≡ live_count numbers.now k }
{
    numbers[..k].iter().map(|w| u64::from(w.count_ones())).sum()
}

pub fn live_count(book: &[u64]) -> Result<u64, Refusal>
    ensures { result ≡ count_asked book.now }
{
    let Some(whole) = Book::of(book) else {
        return Err(Refusal::Shape);
    };
    Ok(count_live(whole.numbers, whole.k))
}
