// The messages about the market, and trades: S, V, W, P, Q, B. Each is read at fixed offsets and checked,
// and proved against its row of the table of fields. (S, W and B look alike, but each makes another struct of another row.)
#![tactic(auto)]

ghost use Rattle.std.specs.Prelude.{◌≡◌, length};
ghost use Rattle.parsed.specs.Parsed.{IsParsed};

use checked::Checked;
use kinds::Reference;
use messages::{
    BrokenTrade, CrossTrade, Message, MwcbDeclineLevel, MwcbStatus, SystemEvent, Trade,
};

// S: System Event, 1.1.
pub fn system_event(s: &[u8]) -> Checked<Message>
    requires { length s.now ≡ 12 }
    ensures { IsParsed 83 s.now result }
{
    let head = checked::head_at(s);
    Checked {
        faults: head.faults,
        value: Message::SystemEvent(SystemEvent {
            head: head.value,
            event_code: wire::u8_at(s, 11),
        }),
    }
}

// V: MWCB Decline Level, 1.2.5.1.
pub fn mwcb_decline_level(s: &[u8]) -> Checked<Message>
    requires { length s.now ≡ 35 }
    ensures { IsParsed 86 s.now result }
{
    let head = checked::head_at(s);
    Checked {
        faults: head.faults,
        value: Message::MwcbDeclineLevel(MwcbDeclineLevel {
            head: head.value,
            level_1: wire::u64_at(s, 11),
            level_2: wire::u64_at(s, 19),
            level_3: wire::u64_at(s, 27),
        }),
    }
}

// W: MWCB Status, 1.2.5.2.
pub fn mwcb_status(s: &[u8]) -> Checked<Message>
    requires { length s.now ≡ 12 }
    ensures { IsParsed 87 s.now result }
{
    let head = checked::head_at(s);
    Checked {
        faults: head.faults,
        value: Message::MwcbStatus(MwcbStatus {
            head: head.value,
            breached_level: wire::u8_at(s, 11),
        }),
    }
}

// P: Trade (Non-Cross), 1.5.1.
pub fn trade(s: &[u8]) -> Checked<Message>
    requires { length s.now ≡ 44 }
    ensures { IsParsed 80 s.now result }
{
    let head = checked::head_at(s);
    let side = checked::side_at(s, 19);
    let stock = checked::text8_at(s, 24);
    let price = checked::price_at(s, 32);
    Checked {
        faults: head.faults + side.faults + stock.faults + price.faults,
        value: Message::Trade(Trade {
            head: head.value,
            order_reference_number: Reference(wire::u64_at(s, 11)),
            buy_sell_indicator: side.value,
            shares: wire::u32_at(s, 20),
            stock: stock.value,
            price: price.value,
            match_number: wire::u64_at(s, 36),
        }),
    }
}

// Q: Cross Trade, 1.5.2.
pub fn cross_trade(s: &[u8]) -> Checked<Message>
    requires { length s.now ≡ 40 }
    ensures { IsParsed 81 s.now result }
{
    let head = checked::head_at(s);
    let stock = checked::text8_at(s, 19);
    let price = checked::price_at(s, 27);
    Checked {
        faults: head.faults + stock.faults + price.faults,
        value: Message::CrossTrade(CrossTrade {
            head: head.value,
            shares: wire::u64_at(s, 11),
            stock: stock.value,
            cross_price: price.value,
            match_number: wire::u64_at(s, 31),
            cross_type: wire::u8_at(s, 39),
        }),
    }
}

// B: Broken Trade, 1.5.3.
pub fn broken_trade(s: &[u8]) -> Checked<Message>
    requires { length s.now ≡ 19 }
    ensures { IsParsed 66 s.now result }
{
    let head = checked::head_at(s);
    Checked {
        faults: head.faults,
        value: Message::BrokenTrade(BrokenTrade {
            head: head.value,
            match_number: wire::u64_at(s, 11),
        }),
    }
}
