// The row of a message, and the trait of the kinds of message that have one.
ghost use Rattle.std.specs.Prelude.{ℕ, ◌≡◌, ◌≤◌, ◌∷◌, length};
ghost use Rattle.messages.specs.Numbers.{after};
ghost use Rattle.messages.specs.declared.Message.{Message};
ghost use Rattle.numbers.specs.Shown.{message_row, padded};

use messages::Head;

pub trait Row {
    // the message that a value of this kind is
    ghost message: { Self → Message };

    fn row(self) -> [u64; 18]
        ensures { result ≡ message_row (message self) };
}

// The type byte, what every message begins with, the fields, and 0 behind them.
pub fn headed(letter: u8, head: Head, fields: &[u64]) -> [u64; 18]
    requires fits { length fields.now ≤ 14 }
    ensures { result ≡ padded 18 (letter ∷ after head fields.now) }
{
    let mut row = [0; 18];
    row[0] = u64::from(letter);
    row[1] = u64::from(head.stock_locate.0);
    row[2] = u64::from(head.tracking_number);
    row[3] = head.timestamp;
    row[4..4 + fields.len()].copy_from_slice(fields);
    row
}
