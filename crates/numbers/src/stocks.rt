// The messages about one stock, as rows of numbers.
ghost use Rattle.messages.specs.declared.Message.{Message};

use crate::row::{Row, headed};
use messages::{
    LuldAuctionCollar, MarketParticipantPosition, OperationalHalt, QuotingPeriodUpdate,
    RegShoRestriction, StockDirectory, StockTradingAction,
};

impl Row for StockDirectory {
    ghost message = { Message.StockDirectory };

    fn row(self) -> [u64; 18] {
        headed(
            b'R',
            self.head,
            &[
                self.stock,
                u64::from(self.market_category),
                u64::from(self.financial_status_indicator),
                u64::from(self.round_lot_size),
                u64::from(self.round_lots_only),
                u64::from(self.issue_classification),
                u64::from(self.issue_sub_type),
                u64::from(self.authenticity),
                u64::from(self.short_sale_threshold_indicator),
                u64::from(self.ipo_flag),
                u64::from(self.luld_reference_price_tier),
                u64::from(self.etp_flag),
                u64::from(self.etp_leverage_factor),
                u64::from(self.inverse_indicator),
            ],
        )
    }
}

impl Row for StockTradingAction {
    ghost message = { Message.StockTradingAction };

    fn row(self) -> [u64; 18] {
        headed(
            b'H',
            self.head,
            &[
                self.stock,
                u64::from(self.trading_state),
                u64::from(self.reserved),
                u64::from(self.reason),
            ],
        )
    }
}

impl Row for RegShoRestriction {
    ghost message = { Message.RegShoRestriction };

    fn row(self) -> [u64; 18] {
        headed(
            b'Y',
            self.head,
            &[self.stock, u64::from(self.reg_sho_action)],
        )
    }
}

impl Row for MarketParticipantPosition {
    ghost message = { Message.MarketParticipantPosition };

    fn row(self) -> [u64; 18] {
        headed(
            b'L',
            self.head,
            &[
                u64::from(self.mpid),
                self.stock,
                u64::from(self.primary_market_maker),
                u64::from(self.market_maker_mode),
                u64::from(self.market_participant_state),
            ],
        )
    }
}

impl Row for QuotingPeriodUpdate {
    ghost message = { Message.QuotingPeriodUpdate };

    fn row(self) -> [u64; 18] {
        headed(
            b'K',
            self.head,
            &[
                self.stock,
                u64::from(self.ipo_quotation_release_time),
                u64::from(self.ipo_quotation_release_qualifier),
                u64::from(self.ipo_price.0),
            ],
        )
    }
}

impl Row for LuldAuctionCollar {
    ghost message = { Message.LuldAuctionCollar };

    fn row(self) -> [u64; 18] {
        headed(
            b'J',
            self.head,
            &[
                self.stock,
                u64::from(self.auction_collar_reference_price.0),
                u64::from(self.upper_auction_collar_price.0),
                u64::from(self.lower_auction_collar_price.0),
                u64::from(self.auction_collar_extension),
            ],
        )
    }
}

impl Row for OperationalHalt {
    ghost message = { Message.OperationalHalt };

    fn row(self) -> [u64; 18] {
        headed(
            b'h',
            self.head,
            &[
                self.stock,
                u64::from(self.market_code),
                u64::from(self.operational_halt_action),
            ],
        )
    }
}
