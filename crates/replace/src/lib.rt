// U: an order ends its life and another starts under a new reference, in the lowest slot that is then free; or the message is
// refused with 10, 13, 8 or 9, and never because the book is full. Who searches for the original is not known here.
#![tactic(auto)]

ghost use Rattle.std.specs.Prelude.{◌≡◌, ◌*◌, ◌<◌};
ghost use Rattle.book.specs.Finds.{Within};
ghost use Rattle.book.specs.Lent.{SameBook};
ghost use Rattle.orders.specs.Order.{Intact};
ghost use Rattle.decide.specs.Decide.{renew, renewed, replacing, replacing_of};
ghost use Rattle.slots.specs.Stepped.{Stepped};
ghost use Rattle.slots.specs.Stored.{held_at, is_live, seen_in, slot_of};

use book::BookMut;
use decide::{Step, figured};
use kinds::{Locate, Price, Reference, Slot};
use orders::Order;
use refusals::Refusal;

// The order that starts in the place of o.
fn started(o: Order, new: Reference, shares: u32, price: Price) -> Order
    ensures { result ≡ renewed o new.0 shares price.0 }
{
    let locate = o.locate;
    let side = o.side;
    Order {
        reference: new,
        price,
        added: shares,
        executed: 0,
        cancelled: 0,
        closed: 0,
        locate,
        side,
        attribution: 0x4E534451,
    }
}

// The order o that the slot holds ends its life, and the order next starts: the slot counts as free for it, so one always is.
fn renew_in(book: &mut BookMut<'_>, slot: Slot, o: Order, next: Order) -> Result<Step, Refusal>
    requires { (slot.0 < 64 * book.old.k) × (held_at book.old.numbers.now book.old.k slot.0 ≡ Some o) × Intact next }
    ensures same { SameBook book.old book.new }
    ensures renews { Stepped book.old.numbers.now book.old.k slot.0 (renew o next) result book.new.numbers.now }
{
    let shares = o.remaining();
    let end = o.closed();
    let old = figured(o, shares, end.remaining());
    let new = figured(next, next.added, next.remaining());
    book.clear(slot);
    let Some(place) = book.look().lowest_free() else {
        return Err(Refusal::Full);
    };
    slots::put_order(book, place, next);
    Ok(Step::Two(old, new))
}

// The order that the slot holds, replaced: the new reference must be another, and not live.
fn replace_in(
    book: &mut BookMut<'_>,
    slot: Slot,
    o: Order,
    original: Reference,
    new: Reference,
    shares: u32,
    price: Price,
) -> Result<Step, Refusal>
    requires { (slot.0 < 64 * book.old.k) × (held_at book.old.numbers.now book.old.k slot.0 ≡ Some o) }
    ensures same { SameBook book.old book.new }
    ensures replaces { Stepped book.old.numbers.now book.old.k slot.0 (replacing_of original.0 new.0 shares price.0 (is_live book.old.numbers.now book.old.k new.0) o) result book.new.numbers.now }
{
    if new == original {
        return Err(Refusal::Duplicate);
    }
    if let Some(_) = search::find(book.look(), new) {
        return Err(Refusal::Duplicate);
    }
    let next = started(o, new, shares, price);
    renew_in(book, slot, o, next)
}

pub fn replace(
    book: &mut BookMut<'_>,
    found: Option<Slot>,
    original: Reference,
    new: Reference,
    locate: Locate,
    shares: u32,
    price: Price,
) -> Result<Step, Refusal>
    requires { Within book.old.k found }
    ensures same { SameBook book.old book.new }
    ensures replaces { Stepped book.old.numbers.now book.old.k (slot_of found) (replacing locate.0 original.0 new.0 shares price.0 (is_live book.old.numbers.now book.old.k new.0) (seen_in book.old.numbers.now book.old.k found)) result book.new.numbers.now }
{
    let (slot, o) = slots::concerned(book.look(), found, locate)?;
    replace_in(book, slot, o, original, new, shares, price)
}
