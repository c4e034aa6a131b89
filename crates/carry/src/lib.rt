// The bytes of a stream that were read and are not used yet: they are moved to the front of their buffer, so that more can be read
// behind them. It knows nothing of blocks.
#![tactic(auto)]

ghost use Rattle.std.specs.Prelude.{◌≡◌, take};
ghost use Rattle.carry.specs.Carry.{carried, kept_length};

// The first n bytes, or all where there are fewer.
pub fn front(s: &[u8], n: usize) -> &[u8]
    ensures { result.now ≡ take n s.now }
{
    s.get(..n).unwrap_or(s)
}

// Keeps the bytes from `from` on and before `to`, and answers how many they are; where there are none such it changes nothing.
pub fn keep(buffer: &mut [u8], from: usize, to: usize) -> usize
    ensures { (result ≡ kept_length buffer.old from to) × (buffer.new ≡ carried buffer.old from to) }
{
    if from > to || to > buffer.len() {
        return to;
    }
    buffer.copy_within(from..to, 0);
    to - from
}
