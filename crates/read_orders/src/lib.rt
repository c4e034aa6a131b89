// The seven messages that move orders: A, F, E, C, X, D, U. Each is read at fixed offsets and checked,
// and proved against its row of the table of fields.
#![tactic(auto)]

ghost use Rattle.std.specs.Prelude.{◌≡◌, length};
ghost use Rattle.parsed.specs.Parsed.{IsParsed};

use checked::Checked;
use kinds::Reference;
use messages::{
    AddOrder, AddOrderMpid, Message, OrderCancel, OrderDelete, OrderExecuted,
    OrderExecutedWithPrice, OrderReplace,
};

// A: Add Order, no MPID attribution, 1.3.1.
pub fn add_order(s: &[u8]) -> Checked<Message>
    requires { length s.now ≡ 36 }
    ensures { IsParsed 65 s.now result }
{
    let head = checked::head_at(s);
    let lot = checked::lot_at(s, 19);
    let stock = checked::text8_at(s, 24);
    let price = checked::price_at(s, 32);
    Checked {
        faults: head.faults + lot.faults + stock.faults + price.faults,
        value: Message::AddOrder(AddOrder {
            head: head.value,
            order_reference_number: Reference(wire::u64_at(s, 11)),
            buy_sell_indicator: lot.value.side,
            shares: lot.value.shares,
            stock: stock.value,
            price: price.value,
        }),
    }
}

// F: Add Order with MPID attribution, 1.3.2.
pub fn add_order_mpid(s: &[u8]) -> Checked<Message>
    requires { length s.now ≡ 40 }
    ensures { IsParsed 70 s.now result }
{
    let head = checked::head_at(s);
    let lot = checked::lot_at(s, 19);
    let stock = checked::text8_at(s, 24);
    let price = checked::price_at(s, 32);
    let attribution = checked::text4_at(s, 36);
    Checked {
        faults: head.faults + lot.faults + stock.faults + price.faults + attribution.faults,
        value: Message::AddOrderMpid(AddOrderMpid {
            head: head.value,
            order_reference_number: Reference(wire::u64_at(s, 11)),
            buy_sell_indicator: lot.value.side,
            shares: lot.value.shares,
            stock: stock.value,
            price: price.value,
            attribution: attribution.value,
        }),
    }
}

// E: Order Executed, 1.4.1.
pub fn order_executed(s: &[u8]) -> Checked<Message>
    requires { length s.now ≡ 31 }
    ensures { IsParsed 69 s.now result }
{
    let head = checked::head_at(s);
    let shares = checked::shares_at(s, 19);
    Checked {
        faults: head.faults + shares.faults,
        value: Message::OrderExecuted(OrderExecuted {
            head: head.value,
            order_reference_number: Reference(wire::u64_at(s, 11)),
            executed_shares: shares.value,
            match_number: wire::u64_at(s, 23),
        }),
    }
}

// C: Order Executed With Price, 1.4.2.
pub fn order_executed_with_price(s: &[u8]) -> Checked<Message>
    requires { length s.now ≡ 36 }
    ensures { IsParsed 67 s.now result }
{
    let head = checked::head_at(s);
    let shares = checked::shares_at(s, 19);
    let printable = checked::printable_at(s, 31);
    let price = checked::price_at(s, 32);
    Checked {
        faults: head.faults + shares.faults + printable.faults + price.faults,
        value: Message::OrderExecutedWithPrice(OrderExecutedWithPrice {
            head: head.value,
            order_reference_number: Reference(wire::u64_at(s, 11)),
            executed_shares: shares.value,
            match_number: wire::u64_at(s, 23),
            printable: printable.value,
            execution_price: price.value,
        }),
    }
}

// X: Order Cancel, 1.4.3.
pub fn order_cancel(s: &[u8]) -> Checked<Message>
    requires { length s.now ≡ 23 }
    ensures { IsParsed 88 s.now result }
{
    let head = checked::head_at(s);
    let shares = checked::shares_at(s, 19);
    Checked {
        faults: head.faults + shares.faults,
        value: Message::OrderCancel(OrderCancel {
            head: head.value,
            order_reference_number: Reference(wire::u64_at(s, 11)),
            cancelled_shares: shares.value,
        }),
    }
}

// D: Order Delete, 1.4.4.
pub fn order_delete(s: &[u8]) -> Checked<Message>
    requires { length s.now ≡ 19 }
    ensures { IsParsed 68 s.now result }
{
    let head = checked::head_at(s);
    Checked {
        faults: head.faults,
        value: Message::OrderDelete(OrderDelete {
            head: head.value,
            order_reference_number: Reference(wire::u64_at(s, 11)),
        }),
    }
}

// U: Order Replace, 1.4.5.
pub fn order_replace(s: &[u8]) -> Checked<Message>
    requires { length s.now ≡ 35 }
    ensures { IsParsed 85 s.now result }
{
    let head = checked::head_at(s);
    let shares = checked::shares_at(s, 27);
    let price = checked::price_at(s, 31);
    Checked {
        faults: head.faults + shares.faults + price.faults,
        value: Message::OrderReplace(OrderReplace {
            head: head.value,
            original_order_reference_number: Reference(wire::u64_at(s, 11)),
            new_order_reference_number: Reference(wire::u64_at(s, 19)),
            shares: shares.value,
            price: price.value,
        }),
    }
}
