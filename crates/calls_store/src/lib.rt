// The bodies of pullup and pack, which copy bytes within storage: each audits and then does its operation.
#![tactic(auto, using(calls::proofs::Laws::torn))]

ghost use Rattle.std.specs.Prelude.{◌≡◌, []};
ghost use Rattle.kinds.specs.SlipState.{state_of};
ghost use Rattle.rules.specs.Tables.{slip};
ghost use Rattle.rules.specs.Bytes.{decode};
ghost use Rattle.rules.specs.Sound.{lent};
ghost use Rattle.rules.specs.Rule.{name, no_view};
ghost use Rattle.rules.specs.Step.{Pullup, Pack, Do, step};
ghost use Rattle.answer.specs.Result.{result_of, Leaves};

use kinds::{Outcome, SlipName};

// pullup: the first bytes of a chain in one piece.
pub fn pullup(pool: &mut [u8], storage: &mut [u8], s: SlipName, n: u32) -> Outcome
    ensures does { result_of result pool.new storage.new [] no_view
        ≡ step (Do (Pullup (name s.slip.0 s.serial.0) n)) (lent pool.old storage.old) }
    ensures leaves { Leaves result (state_of (slip (decode pool.new) s.slip.0)) }
{
    let shape = audit::audit(pool, storage.len()).shape?;
    pullup::pullup(pool, shape, storage, s, n)
}

// pack: a chain's bytes put afresh under the same slip.
pub fn pack(pool: &mut [u8], storage: &mut [u8], s: SlipName) -> Outcome
    ensures does { result_of result pool.new storage.new [] no_view
        ≡ step (Do (Pack (name s.slip.0 s.serial.0))) (lent pool.old storage.old) }
    ensures leaves { Leaves result (state_of (slip (decode pool.new) s.slip.0)) }
{
    let shape = audit::audit(pool, storage.len()).shape?;
    pack::pack(pool, shape, storage, s)
}
