// One big-endian store: a number into the whole of the part that is lent. It knows nothing of records.
#![tactic(auto)]

ghost use Rattle.std.specs.Prelude.{◌≡◌, length};
ghost use Rattle.store.specs.Store.{big_endian};

// The part's bytes become the number's lowest ones: a part of any length, so no `to_be_bytes`.
pub fn big_endian(part: &mut [u8], value: u64)
    ensures { part.new ≡ big_endian (length part.old) value }
{
    let mut rest = value;
    for i in (0..part.len()).rev() {
        part[i] = (rest % 256) as u8;
        rest /= 256;
    }
}
