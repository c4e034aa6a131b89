// The messages about one stock: R, H, Y, L, K, J, h. Each is read at fixed offsets and checked,
// and proved against its row of the table of fields.
#![tactic(auto)]

ghost use Rattle.std.specs.Prelude.{◌≡◌, length};
ghost use Rattle.parsed.specs.Parsed.{IsParsed};

use checked::Checked;
use messages::{
    LuldAuctionCollar, MarketParticipantPosition, Message, OperationalHalt, QuotingPeriodUpdate,
    RegShoRestriction, StockDirectory, StockTradingAction,
};

// R: Stock Directory, 1.2.1.
pub fn stock_directory(s: &[u8]) -> Checked<Message>
    requires { length s.now ≡ 39 }
    ensures { IsParsed 82 s.now result }
{
    let head = checked::head_at(s);
    let stock = checked::text8_at(s, 11);
    Checked {
        faults: head.faults + stock.faults,
        value: Message::StockDirectory(StockDirectory {
            head: head.value,
            stock: stock.value,
            market_category: wire::u8_at(s, 19),
            financial_status_indicator: wire::u8_at(s, 20),
            round_lot_size: wire::u32_at(s, 21),
            round_lots_only: wire::u8_at(s, 25),
            issue_classification: wire::u8_at(s, 26),
            issue_sub_type: wire::u16_at(s, 27),
            authenticity: wire::u8_at(s, 29),
            short_sale_threshold_indicator: wire::u8_at(s, 30),
            ipo_flag: wire::u8_at(s, 31),
            luld_reference_price_tier: wire::u8_at(s, 32),
            etp_flag: wire::u8_at(s, 33),
            etp_leverage_factor: wire::u32_at(s, 34),
            inverse_indicator: wire::u8_at(s, 38),
        }),
    }
}

// H: Stock Trading Action, 1.2.2.
pub fn stock_trading_action(s: &[u8]) -> Checked<Message>
    requires { length s.now ≡ 25 }
    ensures { IsParsed 72 s.now result }
{
    let head = checked::head_at(s);
    let stock = checked::text8_at(s, 11);
    Checked {
        faults: head.faults + stock.faults,
        value: Message::StockTradingAction(StockTradingAction {
            head: head.value,
            stock: stock.value,
            trading_state: wire::u8_at(s, 19),
            reserved: wire::u8_at(s, 20),
            reason: wire::u32_at(s, 21),
        }),
    }
}

// Y: Reg SHO Restriction, 1.2.3.
pub fn reg_sho_restriction(s: &[u8]) -> Checked<Message>
    requires { length s.now ≡ 20 }
    ensures { IsParsed 89 s.now result }
{
    let head = checked::head_at(s);
    let stock = checked::text8_at(s, 11);
    Checked {
        faults: head.faults + stock.faults,
        value: Message::RegShoRestriction(RegShoRestriction {
            head: head.value,
            stock: stock.value,
            reg_sho_action: wire::u8_at(s, 19),
        }),
    }
}

// L: Market Participant Position, 1.2.4.
pub fn market_participant_position(s: &[u8]) -> Checked<Message>
    requires { length s.now ≡ 26 }
    ensures { IsParsed 76 s.now result }
{
    let head = checked::head_at(s);
    let mpid = checked::text4_at(s, 11);
    let stock = checked::text8_at(s, 15);
    Checked {
        faults: head.faults + mpid.faults + stock.faults,
        value: Message::MarketParticipantPosition(MarketParticipantPosition {
            head: head.value,
            mpid: mpid.value,
            stock: stock.value,
            primary_market_maker: wire::u8_at(s, 23),
            market_maker_mode: wire::u8_at(s, 24),
            market_participant_state: wire::u8_at(s, 25),
        }),
    }
}

// K: Quoting Period Update, 1.2.6.
pub fn quoting_period_update(s: &[u8]) -> Checked<Message>
    requires { length s.now ≡ 28 }
    ensures { IsParsed 75 s.now result }
{
    let head = checked::head_at(s);
    let stock = checked::text8_at(s, 11);
    let price = checked::price_at(s, 24);
    Checked {
        faults: head.faults + stock.faults + price.faults,
        value: Message::QuotingPeriodUpdate(QuotingPeriodUpdate {
            head: head.value,
            stock: stock.value,
            ipo_quotation_release_time: wire::u32_at(s, 19),
            ipo_quotation_release_qualifier: wire::u8_at(s, 23),
            ipo_price: price.value,
        }),
    }
}

// J: LULD Auction Collar, 1.2.7.
pub fn luld_auction_collar(s: &[u8]) -> Checked<Message>
    requires { length s.now ≡ 35 }
    ensures { IsParsed 74 s.now result }
{
    let head = checked::head_at(s);
    let stock = checked::text8_at(s, 11);
    let prices = checked::prices_at::<3>(s, 19);
    Checked {
        faults: head.faults + stock.faults + prices.faults,
        value: Message::LuldAuctionCollar(LuldAuctionCollar {
            head: head.value,
            stock: stock.value,
            auction_collar_reference_price: prices.value[0],
            upper_auction_collar_price: prices.value[1],
            lower_auction_collar_price: prices.value[2],
            auction_collar_extension: wire::u32_at(s, 31),
        }),
    }
}

// h: Operational Halt, 1.2.8.
pub fn operational_halt(s: &[u8]) -> Checked<Message>
    requires { length s.now ≡ 21 }
    ensures { IsParsed 104 s.now result }
{
    let head = checked::head_at(s);
    let stock = checked::text8_at(s, 11);
    Checked {
        faults: head.faults + stock.faults,
        value: Message::OperationalHalt(OperationalHalt {
            head: head.value,
            stock: stock.value,
            market_code: wire::u8_at(s, 19),
            operational_halt_action: wire::u8_at(s, 20),
        }),
    }
}
