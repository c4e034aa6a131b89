// The messages about auctions and retail interest: I, N, O. Each is read at fixed offsets and checked,
// and proved against its row of the table of fields. (N looks like Y of `read_stocks`, but makes another struct of another row.)
#![tactic(auto)]

ghost use Rattle.std.specs.Prelude.{◌≡◌, length};
ghost use Rattle.parsed.specs.Parsed.{IsParsed};

use checked::Checked;
use messages::{DirectListing, Message, NetOrderImbalance, RetailInterest};

// I: Net Order Imbalance Indicator, 1.6.
pub fn net_order_imbalance(s: &[u8]) -> Checked<Message>
    requires { length s.now ≡ 50 }
    ensures { IsParsed 73 s.now result }
{
    let head = checked::head_at(s);
    let stock = checked::text8_at(s, 28);
    let prices = checked::prices_at::<3>(s, 36);
    Checked {
        faults: head.faults + stock.faults + prices.faults,
        value: Message::NetOrderImbalance(NetOrderImbalance {
            head: head.value,
            paired_shares: wire::u64_at(s, 11),
            imbalance_shares: wire::u64_at(s, 19),
            imbalance_direction: wire::u8_at(s, 27),
            stock: stock.value,
            far_price: prices.value[0],
            near_price: prices.value[1],
            current_reference_price: prices.value[2],
            cross_type: wire::u8_at(s, 48),
            price_variation_indicator: wire::u8_at(s, 49),
        }),
    }
}

// N: Retail Interest, 1.7.
pub fn retail_interest(s: &[u8]) -> Checked<Message>
    requires { length s.now ≡ 20 }
    ensures { IsParsed 78 s.now result }
{
    let head = checked::head_at(s);
    let stock = checked::text8_at(s, 11);
    Checked {
        faults: head.faults + stock.faults,
        value: Message::RetailInterest(RetailInterest {
            head: head.value,
            stock: stock.value,
            interest_flag: wire::u8_at(s, 19),
        }),
    }
}

// O: Direct Listing with Capital Raise, 1.8.
pub fn direct_listing(s: &[u8]) -> Checked<Message>
    requires { length s.now ≡ 48 }
    ensures { IsParsed 79 s.now result }
{
    let head = checked::head_at(s);
    let stock = checked::text8_at(s, 11);
    let prices = checked::prices_at::<3>(s, 20);
    let collar = checked::prices_at::<2>(s, 40);
    Checked {
        faults: head.faults + stock.faults + prices.faults + collar.faults,
        value: Message::DirectListing(DirectListing {
            head: head.value,
            stock: stock.value,
            open_eligibility_status: wire::u8_at(s, 19),
            minimum_allowable_price: prices.value[0],
            maximum_allowable_price: prices.value[1],
            near_execution_price: prices.value[2],
            near_execution_time: wire::u64_at(s, 32),
            lower_price_range_collar: collar.value[0],
            upper_price_range_collar: collar.value[1],
        }),
    }
}
