// Fields read and checked: each call gives what stands at a place and the faults found in it. It knows the kinds of
// fields, and no message.
#![tactic(auto, unfolding(wellformed::specs::WellFormed::good_time, wellformed::specs::WellFormed::good_shares))]

ghost use Rattle.std.specs.Prelude.{◌≡◌, ◌+◌, ◌≤◌, ◌*◌, length};
ghost use Rattle.laws.specs.Bools.{fault};
ghost use Rattle.checked.specs.Checked.{ArePrices, IsHeaded, IsLot, IsPriced, IsPrintable, IsShares, IsSided, IsText4, IsText8};

use kinds::{Locate, Price, Side};
use messages::Head;

// In nanoseconds.
const DAY: u64 = 86_400_000_000_000;

// What was read, and the faults found in it.
#[derive(Drop)]
pub struct Checked<T> {
    pub value: T,
    pub faults: u64,
}

impl<T> Checked<T> {
    // A value read, which counts a unit of faults where its test has failed.
    #[tactic(auto, unfolding(laws::specs::Bools::fault))]
    fn tested(value: T, good: bool, unit: u64) -> Checked<T>
        ensures { (result.value ≡ value) × (result.faults ≡ unit * fault good) × (result.faults ≤ unit) }
    {
        Checked {
            value,
            faults: if good { 0 } else { unit },
        }
    }
}

// A side, and the shares behind it.
#[derive(Drop)]
pub struct Lot {
    pub side: Side,
    pub shares: u32,
}

// The fields that every message begins with.
pub fn head_at(s: &[u8]) -> Checked<Head>
    requires { 11 ≤ length s.now }
    ensures { IsHeaded s.now result }
{
    let time = wire::u48_at(s, 5);
    let head = Head {
        stock_locate: Locate(wire::u16_at(s, 1)),
        tracking_number: wire::u16_at(s, 3),
        timestamp: time,
    };
    Checked::tested(head, time < DAY, 512)
}

// Shares, of which there must be at least one.
pub fn shares_at(s: &[u8], at: usize) -> Checked<u32>
    requires { at + 4 ≤ length s.now }
    ensures { IsShares s.now at result }
{
    let n = wire::u32_at(s, at);
    Checked::tested(n, n != 0, 1)
}

// A Price (4), which stands at 0 while it is refused.
#[tactic(auto, unfolding(kinds::specs::Admission::admission, wellformed::specs::WellFormed::good_price, wellformed::specs::FaultSum::price_held, laws::specs::Bools::fault))]
pub fn price_at(s: &[u8], at: usize) -> Checked<Price>
    requires { at + 4 ≤ length s.now }
    ensures { IsPriced s.now at result }
{
    match Price::try_from(wire::u32_at(s, at)) {
        Ok(price) => Checked {
            value: price,
            faults: 0,
        },
        Err(_) => Checked {
            value: Price(0),
            faults: 2,
        },
    }
}

// A side, which stands at Sell while it is refused.
#[tactic(auto, unfolding(wellformed::specs::FaultSum::side_held))]
pub fn side_at(s: &[u8], at: usize) -> Checked<Side>
    requires { at + 1 ≤ length s.now }
    ensures { IsSided s.now at result }
{
    let byte = u64::from(wire::u8_at(s, at));
    Checked::tested(Side::of(byte), Side::good(byte), 16)
}

// A side, and the shares behind it.
pub fn lot_at(s: &[u8], at: usize) -> Checked<Lot>
    requires { at + 5 ≤ length s.now }
    ensures { IsLot s.now at result }
{
    let side = side_at(s, at);
    let shares = shares_at(s, at + 1);
    Checked {
        faults: side.faults + shares.faults,
        value: Lot {
            side: side.value,
            shares: shares.value,
        },
    }
}

// Y is 89 and odd, N is 78 and even: one test for both does not branch on which it is.
#[tactic(auto, using(wellformed::specs::Faults::printable_test))]
pub fn printable_at(s: &[u8], at: usize) -> Checked<u8>
    requires { at + 1 ≤ length s.now }
    ensures { IsPrintable s.now at result }
{
    let b = wire::u8_at(s, at);
    Checked::tested(b, b == 78 + 11 * (b % 2), 16)
}

// A Stock. (A trait over u64 and u32 for this and the next would be longer than both.)
pub fn text8_at(s: &[u8], at: usize) -> Checked<u64>
    requires { at + 8 ≤ length s.now }
    ensures { IsText8 s.now at result }
{
    let v = wire::u64_at(s, at);
    Checked {
        value: v,
        faults: 16 * text::text8(v),
    }
}

// An MPID or an Attribution.
pub fn text4_at(s: &[u8], at: usize) -> Checked<u32>
    requires { at + 4 ≤ length s.now }
    ensures { IsText4 s.now at result }
{
    let v = wire::u32_at(s, at);
    Checked {
        value: v,
        faults: 16 * text::text4(v),
    }
}

// Prices side by side.
pub fn prices_at<const N: usize>(s: &[u8], at: usize) -> Checked<[Price; N]>
    requires { at + 4 * N ≤ length s.now }
    ensures { ArePrices N s.now at result }
{
    let mut value = [Price(0); N];
    let mut faults = 0;
    for i in 0..N {
        let price = price_at(s, at + 4 * i);
        value[i] = price.value;
        faults += price.faults;
    }
    Checked { value, faults }
}
