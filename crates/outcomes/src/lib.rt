// An outcome as numbers that another language can read: 01's number, the 18 numbers of its message as reading gives them, and
// ten figures: of the order that the message concerns its locate, side, price, shares taken or put and what then remains, and for
// U the same of the order that starts.
#![tactic(auto)]

ghost use Rattle.std.specs.Prelude.{[], ◌≡◌};
ghost use Rattle.apply.specs.Apply.{number_of};
ghost use Rattle.numbers.specs.Shown.{padded};
ghost use Rattle.outcomes.specs.Outcomes.{figured, order_row, row_of};

use apply::Outcome;
use decide::Figures;
use refusals::Refusal;

// The five figures of an order.
fn five(f: Figures) -> [u64; 5]
    ensures { result ≡ figured f [] }
{
    [
        u64::from(f.locate.0),
        f.side.byte(),
        u64::from(f.price.0),
        u64::from(f.shares),
        u64::from(f.remains),
    ]
}

// The figures of one order.
fn one(f: Figures, figures: &mut [u64; 10])
    ensures { figures.new ≡ figured f (padded 5 []) }
{
    *figures = [0; 10];
    figures[..5].copy_from_slice(&five(f));
}

// The figures of an order that is closed and of the one that starts.
fn two(f: Figures, g: Figures, figures: &mut [u64; 10])
    ensures { figures.new ≡ figured f (figured g []) }
{
    figures[..5].copy_from_slice(&five(f));
    figures[5..].copy_from_slice(&five(g));
}

// The number of an outcome, with its message's numbers left in out and its orders' in figures.
pub fn write(o: Result<Outcome, Refusal>, out: &mut [u64; 18], figures: &mut [u64; 10]) -> u8
    ensures { (result ≡ number_of o) × (out.new ≡ row_of o) × (figures.new ≡ order_row o) }
{
    match o {
        Err(refusal) => {
            *out = [0; 18];
            *figures = [0; 10];
            u8::from(refusal)
        }
        Ok(Outcome::Accepted(m)) => {
            numbers::message(m, out);
            *figures = [0; 10];
            0
        }
        Ok(Outcome::Moved(m, f)) => {
            numbers::message(m, out);
            one(f, figures);
            0
        }
        Ok(Outcome::Replaced(m, f, g)) => {
            numbers::message(m, out);
            two(f, g, figures);
            0
        }
    }
}
