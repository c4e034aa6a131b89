// Whether 4 or 8 bytes, read as one big-endian number, are a text, a whole number at a time: no loop over the bytes.
// It knows nothing of messages.
#![tactic(auto)]

ghost use Rattle.std.specs.Prelude.{◌≡◌, ◌≤◌};
ghost use Rattle.laws.specs.Bools.{fault};
ghost use Rattle.text.specs.Text.{text};

// 8 bytes. A sum with the same number in each byte, kept to the top bit of each, marks the bytes above a bound: all bytes are
// below hex 80, so that no sum carries from a byte into the next, all are below 7F, and all are from 20. The marks of the
// letters, those from 21, start at the first byte and have no gap: only the first byte's has none before it.
#[tactic(auto, using(crate::proofs::Swar::failed_fault, crate::proofs::Swar::passed_fault, crate::proofs::Swar::eight_fit), unfolding(crate::proofs::Marks::rep, crate::proofs::Run::first))]
pub fn text8(v: u64) -> u64
    ensures { (result ≡ fault (text 8 v)) × (result ≤ 1) }
{
    if v & 0x8080808080808080 != 0 {
        return 1;
    }
    if (v + 0x0101010101010101) & 0x8080808080808080 != 0 {
        return 1;
    }
    if (v + 0x6060606060606060) & 0x8080808080808080 != 0x8080808080808080 {
        return 1;
    }
    let marks = (v + 0x5f5f5f5f5f5f5f5f) & 0x8080808080808080;
    if marks - (marks & (marks >> 8)) != 0x8000000000000000 {
        return 1;
    }
    0
}

// 4 bytes are a text where they are one with four spaces behind them. (Both give a fault to be added up, 0 or 1, and no bool.)
pub fn text4(v: u32) -> u64
    ensures { (result ≡ fault (text 4 v)) × (result ≤ 1) }
{
    text8(u64::from(v) * 0x100000000 + 0x20202020)
}
