// What a message about an order comes to, from what is found: the verdict, and the figures of the orders it concerns. No slot is
// named here. It holds the types of the answer and no table.
#![tactic(auto)]

ghost use Rattle.std.specs.Prelude.{◌≡◌};
ghost use Rattle.decide.specs.Figured.{figures_of};

use kinds::{Locate, Price, Side};
use orders::Order;

// What the answer says of an order: its locate, side and price, the shares taken from it or put, and what then remains.
#[derive(Drop)]
pub struct Figures {
    pub locate: Locate,
    pub side: Side,
    pub price: Price,
    pub shares: u32,
    pub remains: u32,
}

// What an accepted message comes to: no order is concerned, or the figures of one order or of two.
#[derive(Drop)]
pub enum Step {
    Plain,
    One(Figures),
    Two(Figures, Figures),
}

pub fn figured(o: Order, shares: u32, remains: u32) -> Figures
    ensures { result ≡ figures_of o shares remains }
{
    let side = o.side;
    let locate = o.locate;
    let price = o.price;
    Figures {
        locate,
        side,
        price,
        shares,
        remains,
    }
}
