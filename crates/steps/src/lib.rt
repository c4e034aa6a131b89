// What each of the 23 messages does to tables of good shapes: R to the directory, A, F, E, C, X, D and U to the book, the others
// to neither.
#![tactic(auto)]

ghost use Rattle.std.specs.Prelude.{◌≡◌};
ghost use Rattle.book.specs.Lent.{SameBook};
ghost use Rattle.messages.specs.declared.Message.TheVariants as message;
ghost use Rattle.steps.specs.Asked as ask;
ghost use Rattle.steps.specs.Asked.{asked, starting};
ghost use Rattle.steps.specs.Steps.{Does, Turns};

use book::BookMut;
use decide::Step;
use kinds::{Price, Reference, Side};
use messages::{Head, Message, OrderDelete, OrderReplace};
use orders::Order;
use refusals::Refusal;
use take::Taking;

// An order of which nothing is gone yet.
fn start(
    head: Head,
    reference: Reference,
    side: Side,
    shares: u32,
    price: Price,
    attribution: u32,
) -> Order
    ensures { result ≡ starting head reference side shares price attribution }
{
    Order {
        reference,
        price,
        added: shares,
        executed: 0,
        cancelled: 0,
        closed: 0,
        locate: head.stock_locate,
        side,
        attribution,
    }
}

// E, C and X take shares from the order with this reference. (C's execution price never moves the order's level.)
#[tactic(auto, using(book::specs::Finds::find_within))]
fn take_shares(
    book: &mut BookMut<'_>,
    head: Head,
    reference: Reference,
    n: u32,
    how: Taking,
) -> Result<Step, Refusal>
    ensures same { SameBook book.old book.new }
    ensures turns { Turns book.old.numbers.now book.old.k (ask.take how reference.0 head.stock_locate.0 n) result book.new.numbers.now }
{
    let found = search::find(book.look(), reference);
    take::take(book, found, head.stock_locate, n, how)
}

// D: all that remains of the order is closed.
#[tactic(auto, using(book::specs::Finds::find_within))]
fn order_delete(book: &mut BookMut<'_>, m: OrderDelete) -> Result<Step, Refusal>
    ensures same { SameBook book.old book.new }
    ensures turns { Turns book.old.numbers.now book.old.k (asked (message.OrderDelete m)) result book.new.numbers.now }
{
    let found = search::find(book.look(), m.order_reference_number);
    take::delete(book, found, m.head.stock_locate)
}

// U: the new order takes the place of the original.
#[tactic(auto, using(book::specs::Finds::find_within))]
fn order_replace(book: &mut BookMut<'_>, m: OrderReplace) -> Result<Step, Refusal>
    ensures same { SameBook book.old book.new }
    ensures turns { Turns book.old.numbers.now book.old.k (asked (message.OrderReplace m)) result book.new.numbers.now }
{
    let locate = m.head.stock_locate;
    let original = m.original_order_reference_number;
    let new = m.new_order_reference_number;
    let found = search::find(book.look(), original);
    replace::replace(book, found, original, new, locate, m.shares, m.price)
}

// What a message does, by its kind: a match and no table, since each kind has other fields.
pub fn step(directory: &mut [u64], book: &mut BookMut<'_>, m: Message) -> Result<Step, Refusal>
    ensures same { SameBook book.old book.new }
    ensures does { Does directory.old book.old.numbers.now book.old.k (asked m) result directory.new book.new.numbers.now }
{
    match m {
        // A is kept with attribution NSDQ, F with its own.
        Message::AddOrder(m) => {
            let reference = m.order_reference_number;
            let side = m.buy_sell_indicator;
            let o = start(m.head, reference, side, m.shares, m.price, 0x4E534451);
            place::place(directory, book, m.stock, o)
        }
        Message::AddOrderMpid(m) => {
            let reference = m.order_reference_number;
            let side = m.buy_sell_indicator;
            let o = start(m.head, reference, side, m.shares, m.price, m.attribution);
            place::place(directory, book, m.stock, o)
        }
        Message::OrderExecuted(m) => {
            let n = m.executed_shares;
            take_shares(book, m.head, m.order_reference_number, n, Taking::Executed)
        }
        Message::OrderExecutedWithPrice(m) => {
            let n = m.executed_shares;
            take_shares(book, m.head, m.order_reference_number, n, Taking::Executed)
        }
        Message::OrderCancel(m) => {
            let n = m.cancelled_shares;
            take_shares(book, m.head, m.order_reference_number, n, Taking::Cancelled)
        }
        Message::OrderDelete(m) => order_delete(book, m),
        Message::OrderReplace(m) => order_replace(book, m),
        Message::StockDirectory(m) => enroll::enroll(directory, m.head.stock_locate, m.stock),
        _ => Ok(Step::Plain),
    }
}
