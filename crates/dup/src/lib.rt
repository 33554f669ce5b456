// dup: a second slip on a chain, over one new piece that shares the rest.
#![tactic(auto)]

ghost use Rattle.std.specs.Prelude.{◌≡◌, List, [], ℕ};
ghost use Rattle.kinds.specs.Serial.{slip_in};
ghost use Rattle.kinds.specs.SlipState.{state_of};
ghost use Rattle.kinds.specs.Outcome.{number_of};
ghost use Rattle.rules.specs.Tables.{slip};
ghost use Rattle.rules.specs.Bytes.{decode};
ghost use Rattle.rules.specs.Sound.{lent};
ghost use Rattle.rules.specs.Rule.{name, no_view};
ghost use Rattle.rules.specs.Step.{Dup, perform};
ghost use Rattle.chain.specs.Opened.{Opened};
ghost use Rattle.answer.specs.Result.{result_of, Leaves};

use kinds::{Outcome, PieceNumber, Refusal, SlipName, SlipNumber};
use layout::Shape;

// Gives a new slip the chain of slip `s`; an empty chain needs no piece: a handle duplicated.
pub fn dup(pool: &mut [u8], shape: Shape, s: SlipName) -> Outcome
    requires { Opened pool.old shape }
    ensures by_index { (st : List ℕ) → result_of result pool.new st [] no_view ≡ perform (Dup (name s.slip.0 s.serial.0)) (lent pool.old st) }
    ensures leaves { Leaves result (state_of (slip (decode pool.new) (slip_in (number_of result)))) }
{
    let head = chain::enter(pool, shape, s)?;
    let t: SlipNumber = room::lowest(pool, shape).ok_or(Refusal::Slips)?;
    if head == 0 {
        return Ok(build::under_new(pool, shape, t, 0));
    }
    let f: PieceNumber = room::lowest(pool, shape).ok_or(Refusal::Pieces)?;
    rest::clone_rest(pool, shape, PieceNumber(head - 1), 0, f);
    Ok(build::under_new(pool, shape, t, f.0 + 1))
}
