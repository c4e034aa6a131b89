// An answer as numbers that another language can read: 01's number, and 18 numbers, of which the first is the type byte and
// the others are the fields after it in the order of document 000, with 0 behind the last.
#![tactic(auto)]

ghost use Rattle.std.specs.Prelude.{◌≡◌};
ghost use Rattle.numbers.specs.Shown.{answer_number, answer_row, message_row};

mod auctions;
mod market;
mod orders;
mod row;
mod stocks;

use messages::Message;
use refusals::Refusal;
use row::Row;

// The row of a message. Each arm stores its own: storing what the match gives was 2 to 5 % slower for most types.
pub fn message(m: Message, out: &mut [u64; 18])
    ensures { out.new ≡ message_row m }
{
    match m {
        Message::SystemEvent(m) => *out = m.row(),
        Message::StockDirectory(m) => *out = m.row(),
        Message::StockTradingAction(m) => *out = m.row(),
        Message::RegShoRestriction(m) => *out = m.row(),
        Message::MarketParticipantPosition(m) => *out = m.row(),
        Message::MwcbDeclineLevel(m) => *out = m.row(),
        Message::MwcbStatus(m) => *out = m.row(),
        Message::QuotingPeriodUpdate(m) => *out = m.row(),
        Message::LuldAuctionCollar(m) => *out = m.row(),
        Message::OperationalHalt(m) => *out = m.row(),
        Message::AddOrder(m) => *out = m.row(),
        Message::AddOrderMpid(m) => *out = m.row(),
        Message::OrderExecuted(m) => *out = m.row(),
        Message::OrderExecutedWithPrice(m) => *out = m.row(),
        Message::OrderCancel(m) => *out = m.row(),
        Message::OrderDelete(m) => *out = m.row(),
        Message::OrderReplace(m) => *out = m.row(),
        Message::Trade(m) => *out = m.row(),
        Message::CrossTrade(m) => *out = m.row(),
        Message::BrokenTrade(m) => *out = m.row(),
        Message::NetOrderImbalance(m) => *out = m.row(),
        Message::RetailInterest(m) => *out = m.row(),
        Message::DirectListing(m) => *out = m.row(),
    }
}

// The number of an answer, with its 18 numbers left in out.
pub fn write(a: Result<Message, Refusal>, out: &mut [u64; 18]) -> u8
    ensures { (result ≡ answer_number a) × (out.new ≡ answer_row a) }
{
    match a {
        Ok(m) => {
            message(m, out);
            0
        }
        Err(refusal) => {
            *out = [0; 18];
            u8::from(refusal)
        }
    }
}
