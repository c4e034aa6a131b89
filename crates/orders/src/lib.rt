// An order, the steps of its life by value, and the four numbers of a slot that hold it. It knows nothing of the book.
#![tactic(auto)]

ghost use Rattle.std.specs.Prelude.{◌≡◌, ◌+◌, ◌≤◌, ◌<◌};
ghost use Rattle.laws.specs.Bools.{fault};
ghost use Rattle.text.specs.Text.{text};
ghost use Rattle.orders.specs.Order.{cancelled_by, closed_of, executed_by, fourth, held, remaining, second, third};

use kinds::{Locate, Price, Reference, Side};

// An order's life in shares. (That the parts are no more than was added is asked by each step and not kept in the type: definitions make
// orders of their fields alone.)
#[derive(Clone, Copy)]
pub struct Order {
    pub reference: Reference,
    pub price: Price,
    pub added: u32,
    pub executed: u32,
    pub cancelled: u32,
    pub closed: u32,
    pub locate: Locate,
    pub side: Side,
    pub attribution: u32,
}

impl Order {
    // What remains.
    pub fn remaining(self) -> u32
        requires { self.executed + self.cancelled + self.closed ≤ self.added }
        ensures { result ≡ remaining self }
    {
        self.added - self.executed - self.cancelled - self.closed
    }

    // The order with n more shares executed.
    pub fn executed(mut self, n: u32) -> Order
        requires { self.executed + self.cancelled + self.closed + n ≤ self.added }
        ensures { result ≡ executed_by self n }
    {
        self.executed = self.executed + n;
        self
    }

    // The order with n more shares cancelled.
    pub fn cancelled(mut self, n: u32) -> Order
        requires { self.executed + self.cancelled + self.closed + n ≤ self.added }
        ensures { result ≡ cancelled_by self n }
    {
        self.cancelled = self.cancelled + n;
        self
    }

    // The order with all that remains closed.
    pub fn closed(mut self) -> Order
        requires { self.executed + self.cancelled + self.closed ≤ self.added }
        ensures { result ≡ closed_of self }
    {
        self.closed = self.added - self.executed - self.cancelled;
        self
    }

    // The price and the added shares.
    pub fn second(self) -> u64
        ensures { result ≡ second self }
    {
        let price = self.price;
        (price.0 as u64) * 4294967296 + (self.added as u64)
    }

    // The executed and the cancelled shares.
    pub fn third(self) -> u64
        ensures { result ≡ third self }
    {
        (self.executed as u64) * 4294967296 + (self.cancelled as u64)
    }

    // The locate, the side and the attribution.
    pub fn fourth(self) -> u64
        ensures { result ≡ fourth self }
    {
        let locate = self.locate;
        let side = self.side;
        let b = side.byte();
        (locate.0 as u64) * 281474976710656 + b * 1099511627776 + (self.attribution as u64) * 256
    }
}

// NSDQ, which most orders have, is known by one compare. (A fault of 0 or 1, as `text4` gives it.)
fn attribution_fault(a: u32) -> u64
    ensures { result ≡ fault (text 4 a) }
{
    if a == 0x4e534451 { 0 } else { text::text4(a) }
}

// The order that a live slot with these numbers holds, where it is sound. (Four numbers, as they are read, and no array.)
pub fn hold(n0: u64, n1: u64, n2: u64, n3: u64) -> Option<Order>
    ensures { result ≡ held n0 n1 n2 n3 }
{
    let added = n1 % 4294967296;
    let executed = n2 / 4294967296;
    let cancelled = n2 % 4294967296;
    let locate = n3 / 281474976710656;
    let byte = n3 / 1099511627776 % 256;
    let attribution = (n3 / 256 % 4294967296) as u32;
    let Ok(price) = Price::try_from((n1 / 4294967296) as u32) else {
        return None;
    };
    if locate == 0 {
        return None;
    }
    let sided = Side::good(byte);
    if !sided {
        return None;
    }
    if n3 % 256 != 0 {
        return None;
    }
    if added <= executed + cancelled {
        return None;
    }
    if attribution_fault(attribution) != 0 {
        return None;
    }
    Some(Order {
        reference: Reference(n0),
        price,
        added: added as u32,
        executed: executed as u32,
        cancelled: cancelled as u32,
        closed: 0,
        locate: Locate(locate as u16),
        side: Side::of(byte),
        attribution,
    })
}
