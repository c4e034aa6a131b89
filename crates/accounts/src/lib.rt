// The order question: the account of the order with a reference, or 14, 10 or 13. It is lent the book alone.
#![tactic(auto)]

ghost use Rattle.std.specs.Prelude.{◌≡◌, ◌+◌, ◌≤◌};
ghost use Rattle.accounts.specs.Accounts.{account_of, order_asked};

use book::Book;
use kinds::{Locate, Price, Reference, Side};
use orders::Order;
use refusals::Refusal;

#[derive(Drop)]
pub struct Account {
    pub added: u32,
    pub executed: u32,
    pub cancelled: u32,
    pub remaining: u32,
    pub locate: Locate,
    pub side: Side,
    pub price: Price,
    pub attribution: u32,
}

fn account_of(o: Order) -> Account
    requires { o.executed + o.cancelled + o.closed ≤ o.added }
    ensures { result ≡ account_of o }
{
    let locate = o.locate;
    let side = o.side;
    let price = o.price;
    Account {
        added: o.added,
        executed: o.executed,
        cancelled: o.cancelled,
        remaining: o.remaining(),
        locate,
        side,
        price,
        attribution: o.attribution,
    }
}

pub fn order(book: &[u64], reference: Reference) -> Result<Account, Refusal>
    ensures { result ≡ order_asked book.now reference.0 }
{
    let Some(whole) = Book::of(book) else {
        return Err(Refusal::Shape);
    };
    let Some(slot) = search::find(whole, reference) else {
        return Err(Refusal::NoOrder);
    };
    let Some(o) = slots::held_at(whole, slot) else {
        return Err(Refusal::Book);
    };
    Ok(account_of(o))
}
