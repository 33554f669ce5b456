// The bodies of put, dup and cut, which answer a new slip: each audits and then does its operation.
#![tactic(auto, using(calls::proofs::Laws::torn))]

ghost use Rattle.std.specs.Prelude.{◌≡◌, []};
ghost use Rattle.kinds.specs.Serial.{slip_in};
ghost use Rattle.kinds.specs.SlipState.{state_of};
ghost use Rattle.kinds.specs.Outcome.{number_of};
ghost use Rattle.rules.specs.Tables.{slip};
ghost use Rattle.rules.specs.Bytes.{decode};
ghost use Rattle.rules.specs.Sound.{lent};
ghost use Rattle.rules.specs.Rule.{name, no_view};
ghost use Rattle.rules.specs.Step.{Put, Dup, Cut, Do, step};
ghost use Rattle.answer.specs.Result.{result_of, Leaves};

use kinds::{Outcome, SlipName};

// put: bytes into fresh buffers, under a new slip.
pub fn put(pool: &mut [u8], storage: &mut [u8], input: &[u8]) -> Outcome
    ensures does { result_of result pool.new storage.new [] no_view
        ≡ step (Do (Put input.now)) (lent pool.old storage.old) }
    ensures leaves { Leaves result (state_of (slip (decode pool.new) (slip_in (number_of result)))) }
{
    let shape = audit::audit(pool, storage.len()).shape?;
    put::put(pool, shape, storage, input)
}

// dup: a new slip on the same chain.
pub fn dup(pool: &mut [u8], storage: &[u8], s: SlipName) -> Outcome
    ensures does { result_of result pool.new storage.now [] no_view
        ≡ step (Do (Dup (name s.slip.0 s.serial.0))) (lent pool.old storage.now) }
    ensures leaves { Leaves result (state_of (slip (decode pool.new) (slip_in (number_of result)))) }
{
    let shape = audit::audit(pool, storage.len()).shape?;
    dup::dup(pool, shape, s)
}

// cut: a new slip on a range of a chain.
pub fn cut(pool: &mut [u8], storage: &[u8], s: SlipName, offset: u32, length: u32) -> Outcome
    ensures does { result_of result pool.new storage.now [] no_view
        ≡ step (Do (Cut (name s.slip.0 s.serial.0) offset length)) (lent pool.old storage.now) }
    ensures leaves { Leaves result (state_of (slip (decode pool.new) (slip_in (number_of result)))) }
{
    let shape = audit::audit(pool, storage.len()).shape?;
    cut::cut(pool, shape, s, offset, length)
}
