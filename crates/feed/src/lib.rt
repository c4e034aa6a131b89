// The replay program's blocks, applied and counted: a refused message leaves a record as it happens. It is lent what was read, both
// tables, and a buffer for the records, and knows nothing of files.
#![tactic(auto)]

ghost use Rattle.std.specs.Prelude.{◌≡◌, length};
ghost use Rattle.apply.specs.Apply.{number_of};
ghost use Rattle.records.specs.Append.{appended, reach};
ghost use Rattle.feed.specs.Feed.{closes, counted, feed_leaves, more, ran_through, told};
ghost use Rattle.feed.specs.Step.{stepped};

use apply::Outcome;
use refusals::Refusal;

// How many messages there were, and how many of them were refused.
#[derive(Clone, Copy)]
pub struct Tally {
    pub messages: u64,
    pub refused: u64,
}

// How far the input was used, how many bytes of records were written (their buffer is lent: no Vec), and the counts then.
#[derive(Clone, Copy)]
pub struct Fed {
    pub at: usize,
    pub written: usize,
    pub tally: Tally,
}

// The paper's number of an outcome: 0 where the message is accepted, as counts and records have it.
fn number(o: Result<Outcome, Refusal>) -> u8
    ensures { result ≡ number_of o }
{
    match o {
        Ok(_) => 0,
        Err(refusal) => u8::from(refusal),
    }
}

// One more; a counter turns over.
fn one_more(n: u64) -> u64
    ensures { result ≡ more n }
{
    n.wrapping_add(1)
}

// The counts with one message more.
fn count(tally: Tally, number: u8) -> Tally
    ensures { result ≡ counted tally number }
{
    let refused = if number == 0 {
        tally.refused
    } else {
        one_more(tally.refused)
    };
    Tally {
        messages: one_more(tally.messages),
        refused,
    }
}

// A refusal's record behind the first bytes of out, and where it ends; an accepted message leaves none.
fn tell(tally: Tally, number: u8, written: usize, out: &mut [u8]) -> usize
    ensures { (result ≡ reach out.old written (told tally number)) × (out.new ≡ appended out.old written (told tally number)) }
{
    if number == 0 {
        return written;
    }
    let mut row = [0u8; 10];
    records::refusal(&mut row, one_more(tally.messages), number);
    records::append(out, written, &row)
}

// One message, which ends at `end`: it is applied and counted, and a refusal is told behind what is written.
#[tactic(auto, unfolding(crate::specs::Feed::day_after, crate::specs::Feed::record_of))]
fn message(
    bytes: &[u8],
    end: usize,
    directory: &mut [u64],
    book: &mut [u64],
    fed: Fed,
    out: &mut [u8],
) -> Fed
    ensures { record { fed = result; tables = record { directory = directory.new; book = book.new }; out = out.new } ≡ stepped bytes.now end (record { fed = fed; tables = record { directory = directory.old; book = book.old }; out = out.old }) }
{
    let tally = fed.tally;
    let number = number(apply::apply(directory, book, bytes));
    let written = tell(tally, number, fed.written, out);
    Fed {
        at: end,
        written,
        tally: count(tally, number),
    }
}

// Whole blocks from the start of the input, while there is room for a refusal's record behind those that are written.
pub fn feed(
    input: &[u8],
    directory: &mut [u64],
    book: &mut [u64],
    tally: Tally,
    out: &mut [u8],
) -> Fed
    ensures { record { fed = result; tables = record { directory = directory.new; book = book.new }; out = out.new } ≡ feed_leaves input.now out.old (ran_through (length out.old) input.now (record { tables = record { directory = directory.old; book = book.old }; tally = tally })) }
{
    let mut fed = Fed {
        at: 0,
        written: 0,
        tally,
    };
    while 10 <= out.len() - fed.written {
        let Some(block) = blocks::block_at(input, fed.at) else {
            break;
        };
        let end = block.end;
        fed = message(&input[block], end, directory, book, fed, out);
    }
    fed
}

// The end of the input, where so many bytes are left that make no whole block: they are one message, refused with 1.
pub fn close(left: usize, tally: Tally, out: &mut [u8; 10]) -> Fed
    ensures { record { fed = result; out = out.new } ≡ closes left tally out.old }
{
    if left == 0 {
        return Fed {
            at: left,
            written: 0,
            tally,
        };
    }
    let refused = u8::from(Refusal::Length);
    let written = tell(tally, refused, 0, out);
    Fed {
        at: left,
        written,
        tally: count(tally, refused),
    }
}
