// put: bytes into fresh buffers, under a new slip.
#![tactic(auto, using(crate::proofs::Laws::laws))]

ghost use Rattle.std.specs.Prelude.{◌≡◌, []};
ghost use Rattle.kinds.specs.Serial.{slip_in};
ghost use Rattle.kinds.specs.SlipState.{state_of};
ghost use Rattle.kinds.specs.Outcome.{number_of};
ghost use Rattle.rules.specs.Tables.{slip};
ghost use Rattle.rules.specs.Bytes.{decode};
ghost use Rattle.rules.specs.Sound.{lent};
ghost use Rattle.rules.specs.Rule.{no_view};
ghost use Rattle.rules.specs.Step.{Put, perform};
ghost use Rattle.tables.specs.Shape.{Backs};
ghost use Rattle.chain.specs.Opened.{Opened};
ghost use Rattle.answer.specs.Result.{result_of, Leaves};

use kinds::{Outcome, Refusal, SlipNumber};
use layout::Shape;

// Puts `input` into fresh pieces on fresh buffers, each full but the last, under a new slip: a chain made from bytes.
pub fn put(pool: &mut [u8], shape: Shape, storage: &mut [u8], input: &[u8]) -> Outcome
    requires { Opened pool.old shape × Backs storage.old shape }
    ensures no_view_after { result_of result pool.new storage.new [] no_view
        ≡ perform (Put input.now) (lent pool.old storage.old) }
    ensures leaves { Leaves result (state_of (slip (decode pool.new) (slip_in (number_of result)))) }
{
    let t: SlipNumber = room::lowest(pool, shape).ok_or(Refusal::Slips)?;
    let count = room::buffers_for(input.len());
    let piece = room::room_for(pool, shape, count).ok_or(Refusal::Pieces)?;
    let buffer = room::room_for(pool, shape, count).ok_or(Refusal::Buffers)?;
    transfer::fill_free(pool, shape, storage, input, buffer);
    let first = build::lay(pool, shape, input.len() as u32, count as u16, piece, buffer);
    Ok(build::under_new(pool, shape, t, first))
}
