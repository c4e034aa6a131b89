// Where an order is: the lowest live slot that holds a reference, by map words. It knows nothing of messages.
#![tactic(auto)]

ghost use Rattle.std.specs.Prelude.{◌≡◌, false, ℕ, ◌+◌, ◌≤◌, ◌<◌, length, IsTrue};
ghost use Rattle.laws.specs.Definitions.{least};
ghost use Rattle.book.specs.Book.{find};
ghost use Rattle.book.specs.Eights.{NoneOfEight};
ghost use Rattle.book.specs.Shape.{Sized};
ghost use Rattle.book.specs.Words.{in_word};

use book::Book;
use kinds::{Reference, Slot};

// The first slot of map number j that is live and holds `want`, by the map number's one bits; 64 where there is none, as `least` says it
// in the definition: an Option would be a second way to say the same in four inner functions of the hot loop.
fn find_sparse(book: Book<'_>, want: u64, j: usize) -> usize
    requires { j < book.k }
    ensures { result ≡ least (in_word book.entry.numbers.now book.entry.k want j) 64 }
{
    let numbers = book.numbers;
    let k = book.k;
    let mut m = numbers[j];
    while m != 0 {
        let t = m.trailing_zeros() as usize;
        if numbers[k + 4 * (64 * j + t)] == want {
            return t;
        }
        m = m & (m - 1);
    }
    64
}

// True only where none of the eight slots from place a on has `want` as its number 0.
fn none_of_eight(book: &[u64], a: usize, want: u64) -> bool
    requires { a + 29 ≤ length book.now }
    ensures { IsTrue result → NoneOfEight book.now a want }
{
    for i in 0..8 {
        if book[a + 4 * i] == want {
            return false;
        }
    }
    true
}

// As find_sparse, slot by slot from slot i of the map number on, where none below i is live and holds `want`.
fn find_from(book: Book<'_>, want: u64, j: usize, i: usize) -> usize
    requires { (j < book.k) × (i ≤ 64) × ((t : ℕ) → t < i → in_word book.numbers.now book.k want j t ≡ false) }
    ensures { result ≡ least (in_word book.entry.numbers.now book.entry.k want j) 64 }
{
    let numbers = book.numbers;
    let k = book.k;
    let w = numbers[j];
    for t in i..64 {
        if numbers[k + 4 * (64 * j + t)] == want {
            if book::bit_of(w, t) == 1 {
                return t;
            }
        }
    }
    64
}

// As find_sparse, eight slots at a time, live or not.
fn find_dense(book: Book<'_>, want: u64, j: usize) -> usize
    requires { j < book.k }
    ensures { result ≡ least (in_word book.entry.numbers.now book.entry.k want j) 64 }
{
    for eighth in 0..8 {
        let i = 8 * eighth;
        if !none_of_eight(book.numbers, book.k + 4 * (64 * j + i), want) {
            return find_from(book, want, j, i);
        }
    }
    64
}

// As find_sparse, by whichever of the two is quicker: any test may choose, since both answer the same.
fn find_word(book: Book<'_>, want: u64, j: usize) -> usize
    requires { j < book.k }
    ensures { result ≡ least (in_word book.entry.numbers.now book.entry.k want j) 64 }
{
    let w = book.numbers[j];
    let x = w & (w >> 32);
    if x & (x >> 16) != 0 {
        return find_dense(book, want, j);
    }
    find_sparse(book, want, j)
}

// The lowest live slot that holds `want`: a book by value is passed in memory, and these two in registers.
fn find_in(numbers: &[u64], k: usize, want: u64) -> Option<Slot>
    requires { Sized numbers.now k }
    ensures { result ≡ find numbers.now k want }
{
    let book = Book { numbers, k };
    for j in 0..k {
        let i = find_word(book, want, j);
        if i < 64 {
            return Some(Slot(64 * j + i));
        }
    }
    None
}

// The lowest live slot that holds the reference. (Inlined, so that the book is never passed in memory.)
#[inline(always)]
pub fn find(book: Book<'_>, reference: Reference) -> Option<Slot>
    ensures { result ≡ find book.entry.numbers.now book.entry.k reference.0 }
{
    find_in(book.numbers, book.k, reference.0)
}
