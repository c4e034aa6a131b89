// A stream is split into blocks: a 2-byte big-endian length and that many bytes. It knows nothing of messages.
#![tactic(auto)]

ghost use Rattle.std.specs.Prelude.{◌≡◌};
ghost use Rattle.blocks.specs.Blocks.{block_at};

use std::ops::Range;

// Where the message of the block that begins at `at` stands; none where there is only a part of a block, or nothing.
pub fn block_at(s: &[u8], at: usize) -> Option<Range<usize>>
    ensures { result ≡ block_at s.now at }
{
    let rest = s.get(at..)?;
    if rest.len() < 2 {
        return None;
    }
    let promised = usize::from(wire::u16_at(rest, 0));
    if rest.len() - 2 < promised {
        return None;
    }
    Some(at + 2..at + 2 + promised)
}
