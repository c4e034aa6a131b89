// The judgement of a message that is read but not yet judged: what its fields hold, with their faults, added up. It knows no layout.
#![tactic(auto)]

ghost use Rattle.std.specs.Prelude.{◌≡◌};
ghost use Rattle.parsed.specs.Parsed.{answer_of};

use checked::Checked;
use messages::Message;
use refusals::Refusal;

// The message where nothing is wrong with it, else the refusal that its faults show. (Tests in a row: a match on ranges compiles to a
// test for 1 before that for 0, which most messages then take too.)
#[tactic(auto, unfolding(crate::specs::Parsed::answer_of))]
pub fn judge(p: Checked<Message>) -> Result<Message, Refusal>
    ensures { result ≡ answer_of p }
{
    let w = p.faults;
    if w == 0 {
        return Ok(p.value);
    }
    if 512 <= w {
        return Err(Refusal::Time);
    }
    if 16 <= w {
        return Err(Refusal::Field);
    }
    if 2 <= w {
        Err(Refusal::Price)
    } else {
        Err(Refusal::Shares)
    }
}
