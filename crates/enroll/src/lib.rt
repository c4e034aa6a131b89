// R: a symbol is registered at a locate, or the message is refused with 7 or 8. It knows nothing of the book.
#![tactic(auto)]

ghost use Rattle.decide.specs.Decide.{registering};
ghost use Rattle.directory.specs.Directory.{entry_at};
ghost use Rattle.enroll.specs.Enrolled.{Enrolled};

use decide::Step;
use kinds::Locate;
use refusals::Refusal;

pub fn enroll(directory: &mut [u64], locate: Locate, symbol: u64) -> Result<Step, Refusal>
    ensures { Enrolled directory.old (registering (entry_at directory.old locate.0) locate.0 symbol) result directory.new }
{
    let Some(registered) = directory::entry_at(directory, locate) else {
        return Err(Refusal::Stock);
    };
    if registered == 0 {
        directory::register(directory, locate, symbol);
        return Ok(Step::Plain);
    }
    if registered != symbol {
        return Err(Refusal::Conflict);
    }
    Ok(Step::Plain)
}
