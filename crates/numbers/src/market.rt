// The messages about the market, and trades, as rows of numbers.
ghost use Rattle.messages.specs.declared.Message.{Message};

use crate::row::{Row, headed};
use messages::{BrokenTrade, CrossTrade, MwcbDeclineLevel, MwcbStatus, SystemEvent, Trade};

impl Row for SystemEvent {
    ghost message = { Message.SystemEvent };

    fn row(self) -> [u64; 18] {
        headed(b'S', self.head, &[u64::from(self.event_code)])
    }
}

impl Row for MwcbDeclineLevel {
    ghost message = { Message.MwcbDeclineLevel };

    fn row(self) -> [u64; 18] {
        headed(b'V', self.head, &[self.level_1, self.level_2, self.level_3])
    }
}

impl Row for MwcbStatus {
    ghost message = { Message.MwcbStatus };

    fn row(self) -> [u64; 18] {
        headed(b'W', self.head, &[u64::from(self.breached_level)])
    }
}

impl Row for Trade {
    ghost message = { Message.Trade };

    fn row(self) -> [u64; 18] {
        headed(
            b'P',
            self.head,
            &[
                self.order_reference_number.0,
                self.buy_sell_indicator.byte(),
                u64::from(self.shares),
                self.stock,
                u64::from(self.price.0),
                self.match_number,
            ],
        )
    }
}

impl Row for CrossTrade {
    ghost message = { Message.CrossTrade };

    fn row(self) -> [u64; 18] {
        headed(
            b'Q',
            self.head,
            &[
                self.shares,
                self.stock,
                u64::from(self.cross_price.0),
                self.match_number,
                u64::from(self.cross_type),
            ],
        )
    }
}

impl Row for BrokenTrade {
    ghost message = { Message.BrokenTrade };

    fn row(self) -> [u64; 18] {
        headed(b'B', self.head, &[self.match_number])
    }
}
