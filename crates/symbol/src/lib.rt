// The symbol question: a message's unpadded symbol as a part of the message, after comparison with the directory.
#![tactic(auto)]

ghost use Rattle.std.specs.Prelude.{◌≡◌};
ghost use Rattle.reader.specs.Read.{answer};
ghost use Rattle.directory.specs.Directory.{entry_at, is_symbol};
ghost use Rattle.symbol.specs.Symbol.{IsPart, is_good, stock_at, symbol_part, unpadded};

use kinds::Locate;

// A part of a message: where it starts, and how many bytes it has, the two numbers that the C call gives. The empty part starts at 0.
#[derive(Drop)]
pub struct Part {
    pub start: usize,
    pub len: usize,
}

// Where a type's Stock field starts; 0 for a type without one, and for a byte that is no type, as the definition has it (`stock_at`).
fn stock_at(t: u8) -> usize
    ensures { result ≡ stock_at t }
{
    match t {
        b'R' => 11,
        b'H' => 11,
        b'Y' => 11,
        b'L' => 15,
        b'K' => 11,
        b'J' => 11,
        b'h' => 11,
        b'A' => 24,
        b'F' => 24,
        b'P' => 24,
        b'Q' => 19,
        b'I' => 28,
        b'N' => 11,
        b'O' => 11,
        _ => 0,
    }
}

// How many of a symbol's 8 bytes stand before the spaces at its end.
fn unpadded_len(symbol: u64) -> usize
    ensures { result ≡ unpadded 8 symbol }
{
    let mut rest = symbol;
    for n in (1..=8).rev() {
        if rest % 256 != 32 {
            return n;
        }
        rest /= 256;
    }
    0
}

fn is_well_formed(message: &[u8]) -> bool
    ensures { result ≡ is_good (answer message.now) }
{
    reader::read(message).is_ok()
}

// Whether a symbol is registered at a locate.
fn is_registered(directory: &[u64], locate: Locate, symbol: u64) -> bool
    ensures { result ≡ is_symbol symbol (entry_at directory.now locate.0) }
{
    directory::entry_at(directory, locate) == Some(symbol)
}

// Where in the message its unpadded symbol stands: the empty part unless the directory's length is right and the message is well
// formed, has a Stock field, and its locate is registered with that symbol.
pub fn part_of(directory: &[u64], message: &[u8]) -> Part
    ensures { result ≡ symbol_part directory.now message.now }
{
    let good = directory::good_length(directory.len());
    if !good {
        return Part { start: 0, len: 0 };
    }
    let formed = is_well_formed(message);
    if !formed {
        return Part { start: 0, len: 0 };
    }
    let start = stock_at(message[0]);
    if start == 0 {
        return Part { start: 0, len: 0 };
    }
    let locate = Locate(wire::u16_at(message, 1));
    let symbol = wire::u64_at(message, start);
    let registered = is_registered(directory, locate, symbol);
    if !registered {
        return Part { start: 0, len: 0 };
    }
    Part {
        start,
        len: unpadded_len(symbol),
    }
}

// The unpadded symbol: a part of the message, whatever becomes of the directory.
pub fn symbol<'d, 'm>(directory: &'d [u64], message: &'m [u8]) -> &'m [u8]
    ensures { IsPart message.entry (symbol_part directory.now message.now) result }
{
    let part = part_of(directory, message);
    let start = part.start;
    let end = start + part.len;
    &message[start..end]
}
