// drop: the first bytes of a chain go.
#![tactic(auto)]

ghost use Rattle.std.specs.Prelude.{◌≡◌, []};
ghost use Rattle.kinds.specs.SlipState.{state_of};
ghost use Rattle.rules.specs.Tables.{slip};
ghost use Rattle.rules.specs.Bytes.{decode};
ghost use Rattle.rules.specs.Sound.{lent};
ghost use Rattle.rules.specs.Rule.{name, no_view};
ghost use Rattle.rules.specs.Step.{Drop, perform};
ghost use Rattle.tables.specs.Shape.{Backs};
ghost use Rattle.chain.specs.Opened.{Opened};
ghost use Rattle.answer.specs.Result.{result_of, Leaves};

use kinds::{Outcome, Refusal, SlipName};
use layout::Shape;

// Takes the first `n` bytes from the chain of slip `s`: a chain trimmed at its front.
pub fn drop_first(pool: &mut [u8], shape: Shape, storage: &mut [u8], s: SlipName, n: u32) -> Outcome
    requires { Opened pool.old shape × Backs storage.old shape }
    ensures no_view_after { result_of result pool.new storage.new [] no_view
        ≡ perform (Drop (name s.slip.0 s.serial.0) n) (lent pool.old storage.old) }
    ensures leaves { Leaves result (state_of (slip (decode pool.new) s.slip.0)) }
{
    let head = chain::enter(pool, shape, s)?;
    let at = chain::reach(pool, shape, head, n)?;
    if n == 0 {
        return Ok(answer::done(pool, shape, s.slip, 0));
    }
    let wanted = rest::wanted(at);
    if wanted == 0 {
        rest::move_to(pool, shape, storage, s.slip, at);
        return Ok(answer::done(pool, shape, s.slip, 0));
    }
    let room = front::room_in_front(pool, shape, head, wanted).map_err(|_| Refusal::Pieces)?;
    let tail = rest::give_back(pool, shape, storage, s.slip, at);
    let link = rest::make(pool, shape, tail, room.from);
    tables::set_slip(pool, shape, s.slip, link + 1);
    Ok(answer::done(pool, shape, s.slip, 0))
}
