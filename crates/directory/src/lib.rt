// The directory of stocks: what stands at a locate, and registering a symbol there. It knows nothing of messages.
#![tactic(auto)]

ghost use Rattle.std.specs.Prelude.{◌≡◌, ◌<◌, length};
ghost use Rattle.directory.specs.Directory.{entry_at, good_length, registered};

use kinds::Locate;

// The most numbers that a directory may have.
const MOST_NUMBERS: usize = 8192;

// Whether a directory may have n numbers.
pub fn good_length(n: usize) -> bool
    ensures { result ≡ good_length n }
{
    2 <= n && n <= MOST_NUMBERS
}

// The symbol that stands at a locate, 0 where none is registered (the table's own number); none at a locate outside the directory.
pub fn entry_at(directory: &[u64], locate: Locate) -> Option<u64>
    ensures { result ≡ entry_at directory.now locate.0 }
{
    let l = locate.0 as usize;
    if l == 0 {
        return None;
    }
    if l < directory.len() {
        Some(directory[l])
    } else {
        None
    }
}

pub fn register(directory: &mut [u64], locate: Locate, symbol: u64)
    requires { locate.0 < length directory.old }
    ensures { directory.new ≡ registered directory.old locate.0 symbol }
{
    let l = locate.0 as usize;
    directory[l] = symbol;
}
