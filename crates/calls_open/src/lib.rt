// The bodies of open and audit, which the exported functions forward to.
#![tactic(auto, using(calls::proofs::Laws::torn, crate::proofs::Laws::laws))]

ghost use Rattle.std.specs.Prelude.{◌≡◌, []};
ghost use Rattle.kinds.specs.Outcome.{answer_of_unit};
ghost use Rattle.rules.specs.Sound.{lent};
ghost use Rattle.rules.specs.Rule.{no_view};
ghost use Rattle.rules.specs.Step.{Audit, Open, Do, step};
ghost use Rattle.calls.specs.Result.{result_of};

use kinds::Refusal;
use layout::Shape;

// open: writes the fresh pool.
pub fn open(
    pool: &mut [u8],
    storage: &[u8],
    buffers: u16,
    pieces: u16,
    slips: u16,
) -> Result<(), Refusal>
    ensures { result_of (answer_of_unit result) pool.new storage.now [] no_view
        ≡ step (Open buffers pieces slips) (lent pool.old storage.now) }
{
    let shape = Shape {
        buffers,
        pieces,
        slips,
    };
    if !layout::sized(shape, pool.len(), storage.len()) {
        return Err(Refusal::Counts);
    }
    layout::fresh(pool, shape);
    Ok(())
}

// audit: done if the pool is sound.
pub fn audit(pool: &[u8], storage: &[u8]) -> Result<(), Refusal>
    ensures { result_of (answer_of_unit result) pool.now storage.now [] no_view ≡ step (Do Audit) (lent pool.now storage.now) }
{
    audit::audit(pool, storage.len()).shape?;
    Ok(())
}
