// E, C, X and D: shares are taken from an order, or all that remains is closed, or the message is refused with 10, 13, 8 or 11. Who
// searches for the order is not known here.
#![tactic(auto)]

ghost use Rattle.std.specs.Prelude.{◌≡◌, ◌+◌, ◌*◌, ◌≤◌, ◌<◌};
ghost use Rattle.book.specs.Finds.{Within};
ghost use Rattle.book.specs.Lent.{SameBook};
ghost use Rattle.decide.specs.Decide.{closing, leave, taking, taking_from};
ghost use Rattle.slots.specs.Stepped.{Stepped};
ghost use Rattle.slots.specs.Stored.{held_at, seen_in, slot_of};
ghost use Rattle.take.specs.Taken.{taken_by};

use book::BookMut;
use decide::{Step, figured};
use kinds::{Locate, Slot};
use orders::Order;
use refusals::Refusal;

// E and C execute, X cancels. (No closure: the definition and the theorems over runs name the two ways.)
#[derive(Drop)]
pub enum Taking {
    Executed,
    Cancelled,
}

// The order with n shares taken from it.
fn taken(o: Order, n: u32, how: Taking) -> Order
    requires { o.executed + o.cancelled + o.closed + n ≤ o.added }
    ensures { result ≡ taken_by how o n }
{
    match how {
        Taking::Executed => o.executed(n),
        Taking::Cancelled => o.cancelled(n),
    }
}

// n shares of the order that the slot holds; one with nothing remaining is removed.
fn take_from(
    book: &mut BookMut<'_>,
    slot: Slot,
    o: Order,
    n: u32,
    how: Taking,
) -> Result<Step, Refusal>
    requires { (slot.0 < 64 * book.old.k) × (held_at book.old.numbers.now book.old.k slot.0 ≡ Some o) }
    ensures same { SameBook book.old book.new }
    ensures takes { Stepped book.old.numbers.now book.old.k slot.0 (taking_from (taken_by how) n o) result book.new.numbers.now }
{
    if o.remaining() < n {
        return Err(Refusal::Over);
    }
    let left = taken(o, n, how);
    let remains = left.remaining();
    let figures = figured(o, n, remains);
    if remains == 0 {
        book.clear(slot);
        return Ok(Step::One(figures));
    }
    slots::put_order(book, slot, left);
    Ok(Step::One(figures))
}

// All that remains of the order that the slot holds is closed, and it is removed.
fn close(book: &mut BookMut<'_>, slot: Slot, o: Order) -> Result<Step, Refusal>
    requires { (slot.0 < 64 * book.old.k) × (held_at book.old.numbers.now book.old.k slot.0 ≡ Some o) }
    ensures same { SameBook book.old book.new }
    ensures closes { Stepped book.old.numbers.now book.old.k slot.0 (leave o) result book.new.numbers.now }
{
    let shares = o.remaining();
    let end = o.closed();
    book.clear(slot);
    Ok(Step::One(figured(o, shares, end.remaining())))
}

// E, C, X: n shares are taken from the order in the slot that was found.
// Inlined, so that the book's fields stay in registers: `apply` was measured 1 to 15 % quicker so.
#[inline(always)]
pub fn take(
    book: &mut BookMut<'_>,
    found: Option<Slot>,
    locate: Locate,
    n: u32,
    how: Taking,
) -> Result<Step, Refusal>
    requires { Within book.old.k found }
    ensures same { SameBook book.old book.new }
    ensures takes { Stepped book.old.numbers.now book.old.k (slot_of found) (taking (taken_by how) locate.0 n (seen_in book.old.numbers.now book.old.k found)) result book.new.numbers.now }
{
    let (slot, o) = slots::concerned(book.look(), found, locate)?;
    take_from(book, slot, o, n, how)
}

// D: the order in the slot that was found ends its life.
pub fn delete(book: &mut BookMut<'_>, found: Option<Slot>, locate: Locate) -> Result<Step, Refusal>
    requires { Within book.old.k found }
    ensures same { SameBook book.old book.new }
    ensures closes { Stepped book.old.numbers.now book.old.k (slot_of found) (closing locate.0 (seen_in book.old.numbers.now book.old.k found)) result book.new.numbers.now }
{
    let (slot, o) = slots::concerned(book.look(), found, locate)?;
    close(book, slot, o)
}
