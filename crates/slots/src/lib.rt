// Orders in the slots of a book: what a slot holds, an order put into one, and the order that a message concerns.
#![tactic(auto)]

ghost use Rattle.std.specs.Prelude.{◌≡◌, ◌*◌, ◌<◌};
ghost use Rattle.book.specs.Lent.{SameBook};
ghost use Rattle.book.specs.Finds.{Within};
ghost use Rattle.slots.specs.Concerned.{concern_of};
ghost use Rattle.slots.specs.Stored.{held_at, put_order};

use book::{Book, BookMut};
use kinds::{Locate, Slot};
use orders::Order;
use refusals::Refusal;

// What a slot holds. (That a slot is one of the book's is a fact of two values, so each function asks it.)
pub fn held_at(book: Book<'_>, slot: Slot) -> Option<Order>
    requires { slot.0 < 64 * book.k }
    ensures { result ≡ held_at book.entry.numbers.now book.entry.k slot.0 }
{
    let n0 = book.number_at(slot, 0);
    let n1 = book.number_at(slot, 1);
    let n2 = book.number_at(slot, 2);
    let n3 = book.number_at(slot, 3);
    orders::hold(n0, n1, n2, n3)
}

// The slot live with the order's numbers.
pub fn put_order(book: &mut BookMut<'_>, slot: Slot, o: Order)
    requires { slot.0 < 64 * book.old.k }
    ensures same { SameBook book.old book.new }
    ensures put { book.new.numbers.now ≡ put_order book.old.numbers.now book.old.k slot.0 o }
{
    let reference = o.reference;
    book.put(slot, reference.0, o.second(), o.third(), o.fourth());
}

// The order in the slot that was found, where its locate is the message's: else 10, 13 or 8.
pub fn concerned(
    book: Book<'_>,
    found: Option<Slot>,
    locate: Locate,
) -> Result<(Slot, Order), Refusal>
    requires { Within book.k found }
    ensures { result ≡ concern_of book.entry.numbers.now book.entry.k found locate.0 }
{
    let Some(slot) = found else {
        return Err(Refusal::NoOrder);
    };
    let Some(o) = held_at(book, slot) else {
        return Err(Refusal::Book);
    };
    if o.locate != locate {
        return Err(Refusal::Conflict);
    }
    Ok((slot, o))
}
