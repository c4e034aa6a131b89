// The kinds of number that cannot be mixed, and the price with its bound. It knows nothing of messages or tables.
#![tactic(auto)]

ghost use Rattle.std.specs.Prelude.{◌≡◌, ◌≤◌};
ghost use Rattle.kinds.specs.Admission.{admission};
ghost use Rattle.kinds.specs.Sides.{good_side, side_byte, side_of};

// A stock's locate code.
#[derive(Clone, Copy, PartialEq, Eq)]
pub struct Locate(pub u16);

// An order's reference number.
#[derive(Clone, Copy, PartialEq, Eq)]
pub struct Reference(pub u64);

// A place for an order in the book.
#[derive(Clone, Copy)]
pub struct Slot(pub usize);

// A Price (4): an amount of money in ten-thousandths.
#[derive(Clone, Copy)]
pub struct Price(pub u32);

#[derive(Clone, Copy)]
pub enum Side {
    Buy,
    Sell,
}

impl Side {
    // Its byte, B or S. (Not a `From`: no number is what a side is but by this name.)
    pub fn byte(self) -> u64
        ensures { (result ≡ side_byte self) × (result ≤ 83) }
    {
        match self {
            Side::Buy => 66,
            Side::Sell => 83,
        }
    }

    // The side of a byte that is B or S; any other is held as Sell while it is refused, so that no field's reader branches (a `TryFrom` would).
    pub fn of(byte: u64) -> Side
        ensures { result ≡ side_of byte }
    {
        if byte == 66 { Side::Buy } else { Side::Sell }
    }

    // Whether a byte is a side's. B is even and S is odd: one test for both does not branch on which it is.
    pub fn good(byte: u64) -> bool
        ensures { result ≡ good_side byte }
    {
        byte == 66 + 17 * (byte % 2)
    }
}

impl Price {
    // 200,000.0000, the largest Price (4).
    pub const MAX: u32 = 2_000_000_000;
}

// A number above the largest price is none.
#[derive(Clone, Copy)]
pub struct TooHigh;

// The price n, unless n is above the maximum.
impl TryFrom<u32> for Price {
    type Error = TooHigh;

    ghost try_from_gives = { λ n r. r ≡ admission n };

    #[tactic(auto, unfolding(crate::specs::Admission::admission, crate::specs::Admission::maximum))]
    fn try_from(n: u32) -> Result<Price, TooHigh> {
        if n <= Price::MAX {
            Ok(Price(n))
        } else {
            Err(TooHigh)
        }
    }
}
