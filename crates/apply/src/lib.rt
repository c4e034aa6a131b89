// The public call over both tables: any bytes to the answer that 01 fixes, with the tables changed as 01 says or not at all.
#![tactic(auto)]

ghost use Rattle.std.specs.Prelude.{◌≡◌};
ghost use Rattle.apply.specs.Apply.{applied, concluded};

use book::BookMut;
use decide::{Figures, Step};
use messages::Message;
use refusals::Refusal;

// What an accepted message comes to: its typed fields alone, or with the figures of the orders it concerns.
#[derive(Drop)]
pub enum Outcome {
    Accepted(Message),
    Moved(Message, Figures),
    Replaced(Message, Figures, Figures),
}

fn conclude(m: Message, step: Step) -> Outcome
    ensures { Ok result ≡ concluded m (Ok step) }
{
    match step {
        Step::Plain => Outcome::Accepted(m),
        Step::One(figures) => Outcome::Moved(m, figures),
        Step::Two(old, new) => Outcome::Replaced(m, old, new),
    }
}

// Applies one message to the directory and the book: 14, 1 to 6 and 7 to 13 are refused and change nothing. (Two tables and
// not one value of both, here and below: R changes the one, the others change the other.)
pub fn apply(directory: &mut [u64], book: &mut [u64], bytes: &[u8]) -> Result<Outcome, Refusal>
    ensures { record { outcome = result; directory = directory.new; book = book.new } ≡ applied directory.old book.old bytes.now }
{
    let good = directory::good_length(directory.len());
    if !good {
        return Err(Refusal::Shape);
    }
    let k = book::words_of(book.len());
    if k == 0 {
        return Err(Refusal::Shape);
    }
    let m = reader::read(bytes)?;
    let mut whole = BookMut::new(book, k);
    let step = steps::step(directory, &mut whole, m)?;
    Ok(conclude(m, step))
}
