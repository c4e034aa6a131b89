// The replay program: blocks on standard input, records on standard output. What is done with the bytes is in feed, carry, ladders and
// records; here they are only read, handed over and written.
#![tactic(auto)]

use feed::Tally;
use std::io;
use std::io::{ErrorKind, Read, Write};

// How many locates the directory has, 0 among them.
const LOCATES: u16 = 2048;

// How many bytes of records are held: there is room for a level's, so that each buffer of levels gets on.
const OUTPUT: usize = 65536;

// What the program stops at.
#[derive(Drop)]
enum Failure {
    Input(io::Error),
    Output(io::Error),
}

// Where the day stands: so many bytes are held that are not used yet, and the counts so far. (Buffers of fixed length, since nothing is allocated.)
#[derive(Clone, Copy)]
struct Day {
    held: usize,
    tally: Tally,
}

// Tells on standard error what failed, and why in the system's words. std writes the error's number behind them; it is left out.
fn tell(rt: &impl Eprint, failure: Failure) {
    let (what, error) = match failure {
        Failure::Input(error) => ("standard input", error),
        Failure::Output(error) => ("standard output", error),
    };
    let mut text = [0u8; 256];
    let mut room: &mut [u8] = &mut text;
    let _ = write!(room, "{error}");
    let said = str::from_utf8(&text).unwrap_or("");
    let words = match said.split_once(" (os error ") {
        Some((words, _)) => words,
        None => said.trim_end_matches('\0'),
    };
    let _ = eprintln!(rt; "{what}: {words}");
}

fn write(rt: &impl Print, records: &[u8]) -> Result<(), Failure> {
    rt.write_all(records).map_err(Failure::Output)
}

// Reads behind the bytes that are held, and answers how many are held then; none at the end of the input. A call that a signal
// interrupts is no failure: nothing more is held.
fn read_more(rt: &impl Input, input: &mut [u8], held: usize) -> Result<Option<usize>, Failure> {
    let Some(room) = input.get_mut(held..) else {
        return Ok(None);
    };
    match rt.reader().read(room) {
        Ok(0) => Ok(None),
        Ok(got) => Ok(Some(held + got)),
        Err(error) if error.kind() == ErrorKind::Interrupted => Ok(Some(held)),
        Err(error) => Err(Failure::Input(error)),
    }
}

// Applies the whole blocks that are held and writes what is told of them, and reads where there is none, to the end of the input. A
// proved loop has to end, and nothing says that the input does: so turns are counted, up to a number that no run uses up. None where
// the end was not reached, since then the last records would be false: turns used up, or more held than the buffer has, which can't be.
fn apply_all(
    rt: &(impl Input + Print),
    input: &mut [u8],
    directory: &mut [u64],
    book: &mut [u64],
    output: &mut [u8],
) -> Result<Option<Day>, Failure> {
    let mut day = Day {
        held: 0,
        tally: Tally {
            messages: 0,
            refused: 0,
        },
    };
    for _ in 0..u64::MAX {
        let fed = feed::feed(
            carry::front(input, day.held),
            directory,
            book,
            day.tally,
            output,
        );
        write(rt, carry::front(output, fed.written))?;
        day = Day {
            held: carry::keep(input, fed.at, day.held),
            tally: fed.tally,
        };
        if fed.at == 0 {
            if day.held > input.len() {
                return Ok(None);
            }
            let Some(held) = read_more(rt, input, day.held)? else {
                return Ok(Some(day));
            };
            day.held = held;
        }
    }
    Ok(None)
}

// Writes all levels, a buffer at a time.
fn write_levels(rt: &impl Print, book: &[u64], output: &mut [u8; OUTPUT]) -> Result<(), Failure> {
    let end = ladders::first_of(LOCATES);
    let mut rung = ladders::first_of(1);
    while rung < end {
        let filled = ladders::fill(book, rung, LOCATES, output);
        write(rt, carry::front(output, filled.written))?;
        rung = filled.rung;
    }
    Ok(())
}

// The end of the input, where bytes that make no whole block may be left: the last records.
fn close(
    rt: &impl Print,
    day: Day,
    book: &[u64],
    output: &mut [u8; OUTPUT],
) -> Result<(), Failure> {
    let mut cut = [0u8; 10];
    let closed = feed::close(day.held, day.tally, &mut cut);
    write(rt, carry::front(&cut, closed.written))?;
    write_levels(rt, book, output)?;
    let mut last = [0u8; 17];
    records::tally(&mut last, closed.tally.messages, closed.tally.refused);
    write(rt, &last)
}

// The input buffer holds the longest block, so there is room to read where no block is whole. The book has 1,024 slots: 257 numbers for
// every 64 of them.
fn run(rt: &(impl Input + Print)) -> Result<(), Failure> {
    let mut directory = [0u64; 2048];
    let mut book = [0u64; 4112];
    let mut input = [0u8; 131072];
    let mut output = [0u8; OUTPUT];
    match apply_all(rt, &mut input, &mut directory, &mut book, &mut output)? {
        Some(day) => close(rt, day, &book, &mut output),
        None => Ok(()),
    }
}

fn main(rt: HostRuntime) {
    if let Err(failure) = run(&rt) {
        tell(&rt, failure);
    }
}
