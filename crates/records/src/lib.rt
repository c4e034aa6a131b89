// The layout of each record that the replay program writes, and a record put behind those that stand in a buffer.
// Each number's part of a record is lent on to one big-endian store; the kind is written last.
#![tactic(auto)]

ghost use Rattle.std.specs.Prelude.{◌≡◌};
ghost use Rattle.records.specs.Records.{level_record, refusal_record, tally_record};
ghost use Rattle.records.specs.Append.{appended, reach};

pub fn refusal(out: &mut [u8; 10], message: u64, refusal: u8)
    ensures { out.new ≡ refusal_record message refusal }
{
    store::big_endian(&mut out[1..9], message);
    store::big_endian(&mut out[9..10], u64::from(refusal));
    out[0] = b'r';
}

pub fn level(out: &mut [u8; 19], kind: u8, locate: u16, price: u32, total: u64, orders: u64)
    ensures { out.new ≡ level_record kind locate price total orders }
{
    store::big_endian(&mut out[1..3], u64::from(locate));
    store::big_endian(&mut out[3..7], u64::from(price));
    store::big_endian(&mut out[7..15], total);
    store::big_endian(&mut out[15..19], orders);
    out[0] = kind;
}

pub fn tally(out: &mut [u8; 17], messages: u64, refused: u64)
    ensures { out.new ≡ tally_record messages refused }
{
    store::big_endian(&mut out[1..9], messages);
    store::big_endian(&mut out[9..17], refused);
    out[0] = b'z';
}

// A record behind the first `at` bytes of out, and where it ends; where it does not fit nothing changes. (Nothing is allocated: no Vec.)
pub fn append(out: &mut [u8], at: usize, row: &[u8]) -> usize
    ensures { (result ≡ reach out.old at row.now) × (out.new ≡ appended out.old at row.now) }
{
    if at > out.len() || row.len() > out.len() - at {
        return at;
    }
    let end = at + row.len();
    out[at..end].copy_from_slice(row);
    end
}
