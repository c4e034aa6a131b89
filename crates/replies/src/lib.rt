// The answers to the desk's questions as numbers that another language can read: the result is 01's number, and the values are
// left in out, all 0 for a refusal.
#![tactic(auto)]

ghost use Rattle.std.specs.Prelude.{◌≡◌};
ghost use Rattle.replies.specs.Replies.{account_number, account_row, count_number, count_row, level_row, quote_number, quote_row};

use accounts::Account;
use levels::Level;
use refusals::Refusal;

// The eight numbers of an account.
fn write_account(a: Account, out: &mut [u64; 8])
    ensures { out.new ≡ account_row (Ok a) }
{
    *out = [
        u64::from(a.added),
        u64::from(a.executed),
        u64::from(a.cancelled),
        u64::from(a.remaining),
        u64::from(a.locate.0),
        a.side.byte(),
        u64::from(a.price.0),
        u64::from(a.attribution),
    ];
}

// (Four writers and no trait: each has a row of its own length, and other numbers where there is none.)
pub fn account(a: Result<Account, Refusal>, out: &mut [u64; 8]) -> u8
    ensures { (result ≡ account_number a) × (out.new ≡ account_row a) }
{
    match a {
        Err(refusal) => {
            *out = [0; 8];
            u8::from(refusal)
        }
        Ok(account) => {
            write_account(account, out);
            0
        }
    }
}

pub fn level(q: Result<Option<Level>, Refusal>, out: &mut [u64; 2]) -> u8
    ensures { (result ≡ quote_number q) × (out.new ≡ level_row q) }
{
    match q {
        Err(refusal) => {
            *out = [0; 2];
            u8::from(refusal)
        }
        Ok(None) => {
            *out = [0; 2];
            0
        }
        Ok(Some(l)) => {
            *out = [l.shares, l.orders];
            0
        }
    }
}

pub fn quote(q: Result<Option<Level>, Refusal>, out: &mut [u64; 4]) -> u8
    ensures { (result ≡ quote_number q) × (out.new ≡ quote_row q) }
{
    match q {
        Err(refusal) => {
            *out = [0; 4];
            u8::from(refusal)
        }
        Ok(None) => {
            *out = [0; 4];
            0
        }
        Ok(Some(l)) => {
            *out = [1, u64::from(l.price), l.shares, l.orders];
            0
        }
    }
}

pub fn count(c: Result<u64, Refusal>, out: &mut [u64; 1]) -> u8
    ensures { (result ≡ count_number c) × (out.new ≡ count_row c) }
{
    match c {
        Err(refusal) => {
            *out = [0; 1];
            u8::from(refusal)
        }
        Ok(n) => {
            *out = [n];
            0
        }
    }
}
