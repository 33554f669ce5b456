// The bodies of free, append, drop and keep, which change chains: each audits and then does its operation. append gives no buffer back and writes no storage.
#![tactic(auto, using(calls::proofs::Laws::torn))]

ghost use Rattle.std.specs.Prelude.{◌≡◌, []};
ghost use Rattle.kinds.specs.SlipState.{state_of};
ghost use Rattle.rules.specs.Tables.{slip};
ghost use Rattle.rules.specs.Bytes.{decode};
ghost use Rattle.rules.specs.Sound.{lent};
ghost use Rattle.rules.specs.Rule.{name, no_view};
ghost use Rattle.rules.specs.Step.{Free, Append, Drop, Keep, Do, step};
ghost use Rattle.answer.specs.Result.{result_of, Leaves};

use kinds::{Outcome, SlipName};

// free: a slip gives up its chain.
pub fn free(pool: &mut [u8], storage: &mut [u8], s: SlipName) -> Outcome
    ensures does { result_of result pool.new storage.new [] no_view
        ≡ step (Do (Free (name s.slip.0 s.serial.0))) (lent pool.old storage.old) }
    ensures leaves { Leaves result (state_of (slip (decode pool.new) s.slip.0)) }
{
    let shape = audit::audit(pool, storage.len()).shape?;
    free::free(pool, shape, storage, s)
}

// append: one chain behind another.
pub fn append(pool: &mut [u8], storage: &[u8], a: SlipName, b: SlipName) -> Outcome
    ensures does { result_of result pool.new storage.now [] no_view
        ≡ step (Do (Append (name a.slip.0 a.serial.0) (name b.slip.0 b.serial.0))) (lent pool.old storage.now) }
    ensures leaves { Leaves result (state_of (slip (decode pool.new) a.slip.0)) }
{
    let shape = audit::audit(pool, storage.len()).shape?;
    append::append(pool, shape, a, b)
}

// drop: the first bytes of a chain go.
pub fn drop(pool: &mut [u8], storage: &mut [u8], s: SlipName, n: u32) -> Outcome
    ensures does { result_of result pool.new storage.new [] no_view
        ≡ step (Do (Drop (name s.slip.0 s.serial.0) n)) (lent pool.old storage.old) }
    ensures leaves { Leaves result (state_of (slip (decode pool.new) s.slip.0)) }
{
    let shape = audit::audit(pool, storage.len()).shape?;
    drop::drop_first(pool, shape, storage, s, n)
}

// keep: the first bytes of a chain stay.
pub fn keep(pool: &mut [u8], storage: &mut [u8], s: SlipName, n: u32) -> Outcome
    ensures does { result_of result pool.new storage.new [] no_view
        ≡ step (Do (Keep (name s.slip.0 s.serial.0) n)) (lent pool.old storage.old) }
    ensures leaves { Leaves result (state_of (slip (decode pool.new) s.slip.0)) }
{
    let shape = audit::audit(pool, storage.len()).shape?;
    keep::keep(pool, shape, storage, s, n)
}
