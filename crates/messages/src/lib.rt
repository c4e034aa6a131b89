// The messages of TotalView-ITCH 5.0 as types: one struct a kind, with the fields and names of document 000.
// It knows nothing of bytes or tables, and holds no code.
#![tactic(auto)]

use kinds::{Locate, Price, Reference, Side};

// The fields that every message begins with.
#[derive(Clone, Copy)]
pub struct Head {
    pub stock_locate: Locate,
    pub tracking_number: u16,
    pub timestamp: u64,
}

// S: System Event, 1.1.
#[derive(Clone, Copy)]
pub struct SystemEvent {
    pub head: Head,
    pub event_code: u8,
}

// R: Stock Directory, 1.2.1.
#[derive(Clone, Copy)]
pub struct StockDirectory {
    pub head: Head,
    pub stock: u64,
    pub market_category: u8,
    pub financial_status_indicator: u8,
    pub round_lot_size: u32,
    pub round_lots_only: u8,
    pub issue_classification: u8,
    pub issue_sub_type: u16,
    pub authenticity: u8,
    pub short_sale_threshold_indicator: u8,
    pub ipo_flag: u8,
    pub luld_reference_price_tier: u8,
    pub etp_flag: u8,
    pub etp_leverage_factor: u32,
    pub inverse_indicator: u8,
}

// H: Stock Trading Action, 1.2.2.
#[derive(Clone, Copy)]
pub struct StockTradingAction {
    pub head: Head,
    pub stock: u64,
    pub trading_state: u8,
    pub reserved: u8,
    pub reason: u32,
}

// Y: Reg SHO Restriction, 1.2.3.
#[derive(Clone, Copy)]
pub struct RegShoRestriction {
    pub head: Head,
    pub stock: u64,
    pub reg_sho_action: u8,
}

// L: Market Participant Position, 1.2.4.
#[derive(Clone, Copy)]
pub struct MarketParticipantPosition {
    pub head: Head,
    pub mpid: u32,
    pub stock: u64,
    pub primary_market_maker: u8,
    pub market_maker_mode: u8,
    pub market_participant_state: u8,
}

// V: MWCB Decline Level, 1.2.5.1.
#[derive(Clone, Copy)]
pub struct MwcbDeclineLevel {
    pub head: Head,
    pub level_1: u64,
    pub level_2: u64,
    pub level_3: u64,
}

// W: MWCB Status, 1.2.5.2.
#[derive(Clone, Copy)]
pub struct MwcbStatus {
    pub head: Head,
    pub breached_level: u8,
}

// K: Quoting Period Update, 1.2.6.
#[derive(Clone, Copy)]
pub struct QuotingPeriodUpdate {
    pub head: Head,
    pub stock: u64,
    pub ipo_quotation_release_time: u32,
    pub ipo_quotation_release_qualifier: u8,
    pub ipo_price: Price,
}

// J: LULD Auction Collar, 1.2.7.
#[derive(Clone, Copy)]
pub struct LuldAuctionCollar {
    pub head: Head,
    pub stock: u64,
    pub auction_collar_reference_price: Price,
    pub upper_auction_collar_price: Price,
    pub lower_auction_collar_price: Price,
    pub auction_collar_extension: u32,
}

// h: Operational Halt, 1.2.8.
#[derive(Clone, Copy)]
pub struct OperationalHalt {
    pub head: Head,
    pub stock: u64,
    pub market_code: u8,
    pub operational_halt_action: u8,
}

// A: Add Order, no MPID attribution, 1.3.1.
#[derive(Clone, Copy)]
pub struct AddOrder {
    pub head: Head,
    pub order_reference_number: Reference,
    pub buy_sell_indicator: Side,
    pub shares: u32,
    pub stock: u64,
    pub price: Price,
}

// F: Add Order with MPID attribution, 1.3.2.
#[derive(Clone, Copy)]
pub struct AddOrderMpid {
    pub head: Head,
    pub order_reference_number: Reference,
    pub buy_sell_indicator: Side,
    pub shares: u32,
    pub stock: u64,
    pub price: Price,
    pub attribution: u32,
}

// E: Order Executed, 1.4.1.
#[derive(Clone, Copy)]
pub struct OrderExecuted {
    pub head: Head,
    pub order_reference_number: Reference,
    pub executed_shares: u32,
    pub match_number: u64,
}

// C: Order Executed With Price, 1.4.2.
#[derive(Clone, Copy)]
pub struct OrderExecutedWithPrice {
    pub head: Head,
    pub order_reference_number: Reference,
    pub executed_shares: u32,
    pub match_number: u64,
    pub printable: u8,
    pub execution_price: Price,
}

// X: Order Cancel, 1.4.3.
#[derive(Clone, Copy)]
pub struct OrderCancel {
    pub head: Head,
    pub order_reference_number: Reference,
    pub cancelled_shares: u32,
}

// D: Order Delete, 1.4.4.
#[derive(Clone, Copy)]
pub struct OrderDelete {
    pub head: Head,
    pub order_reference_number: Reference,
}

// U: Order Replace, 1.4.5.
#[derive(Clone, Copy)]
pub struct OrderReplace {
    pub head: Head,
    pub original_order_reference_number: Reference,
    pub new_order_reference_number: Reference,
    pub shares: u32,
    pub price: Price,
}

// P: Trade (Non-Cross), 1.5.1.
#[derive(Clone, Copy)]
pub struct Trade {
    pub head: Head,
    pub order_reference_number: Reference,
    pub buy_sell_indicator: Side,
    pub shares: u32,
    pub stock: u64,
    pub price: Price,
    pub match_number: u64,
}

// Q: Cross Trade, 1.5.2.
#[derive(Clone, Copy)]
pub struct CrossTrade {
    pub head: Head,
    pub shares: u64,
    pub stock: u64,
    pub cross_price: Price,
    pub match_number: u64,
    pub cross_type: u8,
}

// B: Broken Trade, 1.5.3.
#[derive(Clone, Copy)]
pub struct BrokenTrade {
    pub head: Head,
    pub match_number: u64,
}

// I: Net Order Imbalance Indicator, 1.6.
#[derive(Clone, Copy)]
pub struct NetOrderImbalance {
    pub head: Head,
    pub paired_shares: u64,
    pub imbalance_shares: u64,
    pub imbalance_direction: u8,
    pub stock: u64,
    pub far_price: Price,
    pub near_price: Price,
    pub current_reference_price: Price,
    pub cross_type: u8,
    pub price_variation_indicator: u8,
}

// N: Retail Interest, 1.7.
#[derive(Clone, Copy)]
pub struct RetailInterest {
    pub head: Head,
    pub stock: u64,
    pub interest_flag: u8,
}

// O: Direct Listing with Capital Raise, 1.8.
#[derive(Clone, Copy)]
pub struct DirectListing {
    pub head: Head,
    pub stock: u64,
    pub open_eligibility_status: u8,
    pub minimum_allowable_price: Price,
    pub maximum_allowable_price: Price,
    pub near_execution_price: Price,
    pub near_execution_time: u64,
    pub lower_price_range_collar: Price,
    pub upper_price_range_collar: Price,
}

#[derive(Clone, Copy)]
pub enum Message {
    SystemEvent(SystemEvent),
    StockDirectory(StockDirectory),
    StockTradingAction(StockTradingAction),
    RegShoRestriction(RegShoRestriction),
    MarketParticipantPosition(MarketParticipantPosition),
    MwcbDeclineLevel(MwcbDeclineLevel),
    MwcbStatus(MwcbStatus),
    QuotingPeriodUpdate(QuotingPeriodUpdate),
    LuldAuctionCollar(LuldAuctionCollar),
    OperationalHalt(OperationalHalt),
    AddOrder(AddOrder),
    AddOrderMpid(AddOrderMpid),
    OrderExecuted(OrderExecuted),
    OrderExecutedWithPrice(OrderExecutedWithPrice),
    OrderCancel(OrderCancel),
    OrderDelete(OrderDelete),
    OrderReplace(OrderReplace),
    Trade(Trade),
    CrossTrade(CrossTrade),
    BrokenTrade(BrokenTrade),
    NetOrderImbalance(NetOrderImbalance),
    RetailInterest(RetailInterest),
    DirectListing(DirectListing),
}
