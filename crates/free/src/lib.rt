// free: a slip gives up its chain, and what no other slip or piece holds is freed.
#![tactic(auto)]

ghost use Rattle.std.specs.Prelude.{◌≡◌, []};
ghost use Rattle.kinds.specs.SlipState.{state_of};
ghost use Rattle.rules.specs.Tables.{slip};
ghost use Rattle.rules.specs.Bytes.{decode};
ghost use Rattle.rules.specs.Sound.{lent};
ghost use Rattle.rules.specs.Rule.{name, no_view};
ghost use Rattle.rules.specs.Step.{Free, perform};
ghost use Rattle.tables.specs.Shape.{Backs};
ghost use Rattle.chain.specs.Opened.{Opened};
ghost use Rattle.answer.specs.Result.{result_of, Leaves};

use kinds::{Outcome, SlipName};
use layout::Shape;

// Releases the chain of the slip of a name, which is then vacant with a serial of 1 more: bf_afree of a handle's chain.
pub fn free(pool: &mut [u8], shape: Shape, storage: &mut [u8], s: SlipName) -> Outcome
    requires { Opened pool.old shape × Backs storage.old shape }
    ensures no_view_after { result_of result pool.new storage.new [] no_view
        ≡ perform (Free (name s.slip.0 s.serial.0)) (lent pool.old storage.old) }
    ensures leaves { Leaves result (state_of (slip (decode pool.new) s.slip.0)) }
{
    chain::enter(pool, shape, s)?;
    release::turn(pool, shape, storage, s.slip, 0);
    tables::age(pool, shape, s.slip);
    Ok(answer::done(pool, shape, s.slip, 0))
}
