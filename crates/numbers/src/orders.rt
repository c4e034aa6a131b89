// The messages that move orders, as rows of numbers.
ghost use Rattle.messages.specs.declared.Message.{Message};

use crate::row::{Row, headed};
use messages::{
    AddOrder, AddOrderMpid, OrderCancel, OrderDelete, OrderExecuted, OrderExecutedWithPrice,
    OrderReplace,
};

impl Row for AddOrder {
    ghost message = { Message.AddOrder };

    fn row(self) -> [u64; 18] {
        headed(
            b'A',
            self.head,
            &[
                self.order_reference_number.0,
                self.buy_sell_indicator.byte(),
                u64::from(self.shares),
                self.stock,
                u64::from(self.price.0),
            ],
        )
    }
}

impl Row for AddOrderMpid {
    ghost message = { Message.AddOrderMpid };

    fn row(self) -> [u64; 18] {
        headed(
            b'F',
            self.head,
            &[
                self.order_reference_number.0,
                self.buy_sell_indicator.byte(),
                u64::from(self.shares),
                self.stock,
                u64::from(self.price.0),
                u64::from(self.attribution),
            ],
        )
    }
}

impl Row for OrderExecuted {
    ghost message = { Message.OrderExecuted };

    fn row(self) -> [u64; 18] {
        headed(
            b'E',
            self.head,
            &[
                self.order_reference_number.0,
                u64::from(self.executed_shares),
                self.match_number,
            ],
        )
    }
}

impl Row for OrderExecutedWithPrice {
    ghost message = { Message.OrderExecutedWithPrice };

    fn row(self) -> [u64; 18] {
        headed(
            b'C',
            self.head,
            &[
                self.order_reference_number.0,
                u64::from(self.executed_shares),
                self.match_number,
                u64::from(self.printable),
                u64::from(self.execution_price.0),
            ],
        )
    }
}

impl Row for OrderCancel {
    ghost message = { Message.OrderCancel };

    fn row(self) -> [u64; 18] {
        headed(
            b'X',
            self.head,
            &[
                self.order_reference_number.0,
                u64::from(self.cancelled_shares),
            ],
        )
    }
}

impl Row for OrderDelete {
    ghost message = { Message.OrderDelete };

    fn row(self) -> [u64; 18] {
        headed(b'D', self.head, &[self.order_reference_number.0])
    }
}

impl Row for OrderReplace {
    ghost message = { Message.OrderReplace };

    fn row(self) -> [u64; 18] {
        headed(
            b'U',
            self.head,
            &[
                self.original_order_reference_number.0,
                self.new_order_reference_number.0,
                u64::from(self.shares),
                u64::from(self.price.0),
            ],
        )
    }
}
