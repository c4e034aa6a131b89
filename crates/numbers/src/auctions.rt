// The messages about auctions and retail interest, as rows of numbers.
ghost use Rattle.messages.specs.declared.Message.{Message};

use crate::row::{Row, headed};
use messages::{DirectListing, NetOrderImbalance, RetailInterest};

impl Row for NetOrderImbalance {
    ghost message = { Message.NetOrderImbalance };

    fn row(self) -> [u64; 18] {
        headed(
            b'I',
            self.head,
            &[
                self.paired_shares,
                self.imbalance_shares,
                u64::from(self.imbalance_direction),
                self.stock,
                u64::from(self.far_price.0),
                u64::from(self.near_price.0),
                u64::from(self.current_reference_price.0),
                u64::from(self.cross_type),
                u64::from(self.price_variation_indicator),
            ],
        )
    }
}

impl Row for RetailInterest {
    ghost message = { Message.RetailInterest };

    fn row(self) -> [u64; 18] {
        headed(
            b'N',
            self.head,
            &[self.stock, u64::from(self.interest_flag)],
        )
    }
}

impl Row for DirectListing {
    ghost message = { Message.DirectListing };

    fn row(self) -> [u64; 18] {
        headed(
            b'O',
            self.head,
            &[
                self.stock,
                u64::from(self.open_eligibility_status),
                u64::from(self.minimum_allowable_price.0),
                u64::from(self.maximum_allowable_price.0),
                u64::from(self.near_execution_price.0),
                self.near_execution_time,
                u64::from(self.lower_price_range_collar.0),
                u64::from(self.upper_price_range_collar.0),
            ],
        )
    }
}
