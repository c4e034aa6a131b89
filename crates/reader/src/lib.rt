// Reading a message: any bytes to its typed fields, or to one of the refusals 1 to 6. It is lent the bytes and nothing else.
#![tactic(auto)]

ghost use Rattle.std.specs.Prelude.{◌≡◌, ◌<◌, length};
ghost use Rattle.layout.specs.Layout.{length_of};
ghost use Rattle.reader.specs.Read.{answer, judged_as};

use messages::Message;
use parsed::judge;
use refusals::Refusal;

// How many bytes the messages of a type have; 0 for a byte that is no type, as the table of fields says it (`length_of`).
#[tactic(auto, unfolding(layout::specs::Layout::length_of))]
fn length_of(t: u8) -> usize
    ensures { result ≡ length_of t }
{
    match t {
        b'A' => 36,
        b'D' => 19,
        b'U' => 35,
        b'E' => 31,
        b'X' => 23,
        b'F' => 40,
        b'C' => 36,
        b'P' => 44,
        b'S' => 12,
        b'R' => 39,
        b'H' => 25,
        b'Y' => 20,
        b'L' => 26,
        b'V' => 35,
        b'W' => 12,
        b'K' => 28,
        b'J' => 35,
        b'h' => 21,
        b'Q' => 40,
        b'B' => 19,
        b'I' => 50,
        b'N' => 20,
        b'O' => 48,
        _ => 0,
    }
}

// The answer to bytes of a type and of its length. (The types of a busy day come first; a table of functions would be an indirect call.)
#[tactic(auto, using(crate::proofs::Arms::right), unfolding(layout::specs::Layout::length_of))]
fn judged(s: &[u8], t: u8) -> Result<Message, Refusal>
    requires { (length s.now ≡ length_of t) × (0 < length_of t) }
    ensures { result ≡ judged_as t s.now }
{
    match t {
        b'A' => judge(read_orders::add_order(s)),
        b'D' => judge(read_orders::order_delete(s)),
        b'U' => judge(read_orders::order_replace(s)),
        b'E' => judge(read_orders::order_executed(s)),
        b'X' => judge(read_orders::order_cancel(s)),
        b'F' => judge(read_orders::add_order_mpid(s)),
        b'C' => judge(read_orders::order_executed_with_price(s)),
        b'P' => judge(read_market::trade(s)),
        b'S' => judge(read_market::system_event(s)),
        b'R' => judge(read_stocks::stock_directory(s)),
        b'H' => judge(read_stocks::stock_trading_action(s)),
        b'Y' => judge(read_stocks::reg_sho_restriction(s)),
        b'L' => judge(read_stocks::market_participant_position(s)),
        b'V' => judge(read_market::mwcb_decline_level(s)),
        b'W' => judge(read_market::mwcb_status(s)),
        b'K' => judge(read_stocks::quoting_period_update(s)),
        b'J' => judge(read_stocks::luld_auction_collar(s)),
        b'h' => judge(read_stocks::operational_halt(s)),
        b'Q' => judge(read_market::cross_trade(s)),
        b'B' => judge(read_market::broken_trade(s)),
        b'I' => judge(read_auctions::net_order_imbalance(s)),
        b'N' => judge(read_auctions::retail_interest(s)),
        b'O' => judge(read_auctions::direct_listing(s)),
        _ => Err(Refusal::Type),
    }
}

// The typed fields of the message that the bytes are, or the refusal that they earn.
pub fn read(s: &[u8]) -> Result<Message, Refusal>
    ensures { result ≡ answer s.now }
{
    if s.len() == 0 {
        return Err(Refusal::Length);
    }
    let t = s[0];
    let n = length_of(t);
    if n == 0 {
        return Err(Refusal::Type);
    }
    if s.len() != n {
        return Err(Refusal::Length);
    }
    judged(s, t)
}
