// pack: the bytes of a chain put afresh under the same slip.
#![tactic(auto)]

ghost use Rattle.std.specs.Prelude.{◌≡◌, not, [], length, leb};
ghost use Rattle.kinds.specs.SlipState.{state_of};
ghost use Rattle.rules.specs.Basics.{Is};
ghost use Rattle.rules.specs.Tables.{slip, piece_total};
ghost use Rattle.rules.specs.Bytes.{decode};
ghost use Rattle.rules.specs.Chain.{walk};
ghost use Rattle.rules.specs.Sound.{link_ok, lent};
ghost use Rattle.rules.specs.Rule.{name, no_view};
ghost use Rattle.rules.specs.Step.{Pack, perform};
ghost use Rattle.tables.specs.Shape.{Backs};
ghost use Rattle.chain.specs.Opened.{Opened};
ghost use Rattle.answer.specs.Result.{result_of, Leaves};

use kinds::{Outcome, PieceNumber, Refusal, SlipName};
use layout::Shape;

// Whether the chain that starts at `link` has more than one piece: a fragmented chain.
#[tactic(auto, using(crate::proofs::Laws::one_piece, tables::proofs::Laws::totals))]
fn scattered(pool: &[u8], shape: Shape, link: u16) -> bool
    requires { Opened pool.now shape × Is (link_ok (decode pool.now) link) }
    ensures { result ≡ not (leb (length (walk (piece_total (decode pool.now)) (decode pool.now) link)) 1) }
{
    link != 0 && tables::piece_next(pool, shape, PieceNumber(link - 1)) != 0
}

// Puts the bytes of the chain of slip `s` into fresh pieces on fresh buffers, each full but the
// last, under the same slip; a chain of at most one piece stays: a chain compacted.
#[tactic(auto, using(crate::proofs::Laws::laws, tables::proofs::Laws::totals))]
pub fn pack(pool: &mut [u8], shape: Shape, storage: &mut [u8], s: SlipName) -> Outcome
    requires { Opened pool.old shape × Backs storage.old shape }
    ensures no_view_after { result_of result pool.new storage.new [] no_view
        ≡ perform (Pack (name s.slip.0 s.serial.0)) (lent pool.old storage.old) }
    ensures leaves { Leaves result (state_of (slip (decode pool.new) s.slip.0)) }
{
    let head = chain::enter(pool, shape, s)?;
    if !scattered(pool, shape, head) {
        return Ok(answer::done(pool, shape, s.slip, 0));
    }
    let n = chain::bytes_from(pool, shape, head);
    let count = room::buffers_for(n as usize);
    let piece = room::room_for(pool, shape, count).ok_or(Refusal::Pieces)?;
    let buffer = room::room_for(pool, shape, count).ok_or(Refusal::Buffers)?;
    transfer::refill(pool, shape, storage, head, n, buffer);
    let first = build::lay(pool, shape, n, count as u16, piece, buffer);
    release::turn(pool, shape, storage, s.slip, first + 1);
    Ok(answer::done(pool, shape, s.slip, 0))
}
