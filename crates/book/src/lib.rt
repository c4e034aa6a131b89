// The book's shape, its map and its slots: which slot is free, and what is stored. It knows nothing of messages, nor of what a
// slot's four numbers mean.
#![tactic(auto)]

ghost use Rattle.std.specs.Prelude.{◌≡◌, IfNone, IfSome, ◌+◌, ◌*◌, ◌^◌, ◌<◌, length};
ghost use Rattle.laws.specs.Definitions.{bit, clear_bit, set_bit, least};
ghost use Rattle.book.specs.Book.{clear_slot, four, lowest_free, number_at, put_slot, words_of};
ghost use Rattle.book.specs.Shape.{Sized};
ghost use Rattle.book.specs.Words.{is_zero};

use kinds::Slot;

// The most map numbers that a book may have.
const MOST_WORDS: usize = 64;

// How many map numbers a book of n numbers has; 0 where n is no book's length, as the definition that all statements cite has it; `Book::of`
// is the form with an Option.
pub fn words_of(n: usize) -> usize
    ensures { result ≡ words_of n }
{
    let k = n / 257;
    if n % 257 != 0 {
        return 0;
    }
    if k > MOST_WORDS {
        return 0;
    }
    k
}

// A book that is lent, with how many map numbers it has.
#[derive(Clone, Copy)]
pub struct Book<'b> {
    pub numbers: &'b [u64],
    pub k: usize,
    pub ghost sized: { Sized numbers.now k },
}

impl<'b> Book<'b> {
    // The book that these numbers are, where they are as many as a book has.
    pub fn of(numbers: &'b [u64]) -> Option<Book<'b>>
        ensures shapeless { IfNone result (words_of (length numbers.now) ≡ 0) }
        ensures shaped { IfSome result (λ b. (b.numbers.now ≡ numbers.now) × (b.k ≡ words_of (length numbers.now)) × (0 < b.k)) }
    {
        let k = words_of(numbers.len());
        if k == 0 {
            return None;
        }
        Some(Book { numbers, k })
    }

    // Number i of a slot.
    pub fn number_at(self, slot: Slot, i: usize) -> u64
        requires { (slot.0 < 64 * self.k) × (i < 4) }
        ensures { result ≡ number_at self.entry.numbers.now self.entry.k slot.0 i }
    {
        self.numbers[self.k + 4 * slot.0 + i]
    }

    // The lowest free slot.
    pub fn lowest_free(self) -> Option<Slot>
        ensures { result ≡ lowest_free self.entry.numbers.now self.entry.k }
    {
        for j in 0..self.k {
            let i = free_in(self.numbers[j]);
            if i < 64 {
                return Some(Slot(64 * j + i));
            }
        }
        None
    }
}

// ---- the map's bits

// Bit i of a map number.
pub fn bit_of(w: u64, i: usize) -> u64
    requires { i < 64 }
    ensures { result ≡ bit w i }
{
    (w >> i) % 2
}

// The number whose only one bit is i.
fn only_bit(i: usize) -> u64
    requires { i < 64 }
    ensures { result ≡ 2 ^ i }
{
    1u64 << i
}

fn with_bit(w: u64, i: usize) -> u64
    requires { i < 64 }
    ensures { result ≡ set_bit w i }
{
    w | only_bit(i)
}

// Whatever the bit was.
fn without_bit(w: u64, i: usize) -> u64
    requires { i < 64 }
    ensures { result ≡ clear_bit w i }
{
    w - bit_of(w, i) * only_bit(i)
}

// ---- which slot is free

// The lowest free slot of a map number, tried slot by slot; 64 where all are live, as `least` says it in the definition.
fn free_in(w: u64) -> usize
    ensures { result ≡ least (is_zero w) 64 }
{
    let mut rest = w;
    for i in 0..64 {
        if rest % 2 == 0 {
            return i;
        }
        rest /= 2;
    }
    64
}

// ---- what is stored

// Four numbers from place a on. (Four, and no array: the caller makes each where it is stored.)
fn put_four(book: &mut [u64], a: usize, n0: u64, n1: u64, n2: u64, n3: u64)
    requires { a + 3 < length book.old }
    ensures { book.new ≡ four book.old a n0 n1 n2 n3 }
{
    book[a] = n0;
    book[a + 1] = n1;
    book[a + 2] = n2;
    book[a + 3] = n3;
}

// A book that is lent to be changed, with how many map numbers it has.
#[derive(Drop)]
pub struct BookMut<'b> {
    pub numbers: &'b mut [u64],
    pub k: usize,
    pub ghost sized: { Sized numbers.now k },
}

impl<'b> BookMut<'b> {
    ghost use Rattle.book.specs.Lent.{SameBook};

    // These numbers, lent.
    pub fn new(numbers: &'b mut [u64], k: usize) -> BookMut<'b>
        requires { Sized numbers.old k }
        ensures same_reference { result.numbers.ghost_name ≡ numbers.entry.ghost_name }
        ensures same { (result.numbers.now ≡ numbers.old) × (result.k ≡ k) }
    {
        BookMut { numbers, k }
    }

    // As it stands.
    pub fn look(&self) -> Book<'_>
        ensures { (result.numbers.now ≡ self.now.numbers.now) × (result.k ≡ self.now.k) }
    {
        Book {
            numbers: self.numbers,
            k: self.k,
        }
    }

    // A slot made live with these four numbers.
    pub fn put(&mut self, slot: Slot, n0: u64, n1: u64, n2: u64, n3: u64)
        requires { slot.0 < 64 * self.old.k }
        ensures same { SameBook self.old self.new }
        ensures stored { self.new.numbers.now ≡ put_slot self.old.numbers.now self.old.k slot.0 n0 n1 n2 n3 }
    {
        let s = slot.0;
        let j = s / 64;
        let a = self.k + 4 * s;
        self.numbers[j] = with_bit(self.numbers[j], s % 64);
        put_four(self.numbers, a, n0, n1, n2, n3);
    }

    // A slot made free, its four numbers zero, whatever it was.
    pub fn clear(&mut self, slot: Slot)
        requires { slot.0 < 64 * self.old.k }
        ensures same { SameBook self.old self.new }
        ensures cleared { self.new.numbers.now ≡ clear_slot self.old.numbers.now self.old.k slot.0 }
    {
        let s = slot.0;
        let j = s / 64;
        let a = self.k + 4 * s;
        self.numbers[j] = without_bit(self.numbers[j], s % 64);
        put_four(self.numbers, a, 0, 0, 0, 0);
    }
}
