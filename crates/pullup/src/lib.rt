// pullup: the first bytes of a chain in one piece.
#![tactic(auto, using(tables::proofs::Laws::totals, crate::proofs::Laws::pullup_slip))]

ghost use Rattle.std.specs.Prelude.{◌≡◌, [], ◌<◌};
ghost use Rattle.kinds.specs.SlipState.{state_of};
ghost use Rattle.rules.specs.Tables.{slip};
ghost use Rattle.rules.specs.Bytes.{decode};
ghost use Rattle.rules.specs.Sound.{lent};
ghost use Rattle.rules.specs.Room.{free_from};
ghost use Rattle.rules.specs.Build.{built, built_link};
ghost use Rattle.rules.specs.Rule.{name, no_view};
ghost use Rattle.rules.specs.Step.{Pullup, perform};
ghost use Rattle.tables.specs.Shape.{Shaped, Becomes, Backs};
ghost use Rattle.chain.specs.Opened.{Opened};
ghost use Rattle.answer.specs.Result.{result_of, Leaves};
ghost use Rattle.pullup.specs.Pull.{first_on, FirstMakable, Pullable, Pulled};

use chain::Spot;
use front::FrontRoom;
use kinds::{BufferNumber, Outcome, PieceNumber, Refusal, SlipName, SlipNumber};
use layout::Shape;
use rest::Tail;
use tables::Window;

// Makes a first piece for the `n` bytes of buffer `b`, before what stays, each of the lowest free piece in the room found; answers its link: a head descriptor.
fn make_first(
    pool: &mut [u8],
    shape: Shape,
    tail: Tail,
    room: FrontRoom,
    b: BufferNumber,
    n: u16,
) -> u16
    requires { Shaped pool.old shape × (shape.pieces < 65535) × FirstMakable (decode pool.old) tail room.from.0 room.beyond.0 b.0 }
    ensures { Becomes pool.old pool.new shape (λ T. built T (free_from T room.from.0) (first_on b.0 n tail) tail.next)
        × (result ≡ built_link (free_from (decode pool.old) room.from.0) (first_on b.0 n tail) tail.next) }
{
    let f = room::next_free(pool, shape, room.from);
    // none between `from` and `beyond` is free: that stretch is not scanned again
    let second = (f.0 + 1).max(room.beyond.0);
    let link = rest::make(pool, shape, tail, PieceNumber(second));
    let window = Window {
        buffer: b,
        offset: 0,
        len: n,
    };
    build::take_piece(pool, shape, f, window, link);
    f.0 + 1
}

// Copies the first `n` bytes of the chain of slip `s`, which starts at `head`, to buffer `b`, gives back what stands before the place `at` behind them,
// and puts a piece for them in its place: a gather into a new head segment.
fn pull(
    pool: &mut [u8],
    shape: Shape,
    storage: &mut [u8],
    s: SlipNumber,
    n: u32,
    head: u16,
    at: Spot,
    room: FrontRoom,
    b: BufferNumber,
)
    requires opened { Opened pool.old shape × Backs storage.old shape }
    requires pullable { Pullable (decode pool.old) s.0 n head at room.from.0 room.beyond.0 b.0 }
    ensures { Pulled pool.old storage.old shape s.0 n pool.new storage.new }
{
    transfer::refill(pool, shape, storage, head, n, b);
    let tail = rest::give_back(pool, shape, storage, s, at);
    let first = make_first(pool, shape, tail, room, b, n as u16);
    tables::set_slip(pool, shape, s, first + 1);
}

// Brings the first `n` bytes of the chain of slip `s` into one piece; they are copied only where the first piece has fewer: m_pullup of a handle's chain.
pub fn pullup(pool: &mut [u8], shape: Shape, storage: &mut [u8], s: SlipName, n: u32) -> Outcome
    requires { Opened pool.old shape × Backs storage.old shape }
    ensures no_view_after { result_of result pool.new storage.new [] no_view
        ≡ perform (Pullup (name s.slip.0 s.serial.0) n) (lent pool.old storage.old) }
    ensures leaves { Leaves result (state_of (slip (decode pool.new) s.slip.0)) }
{
    let head = chain::enter(pool, shape, s)?;
    if !BufferNumber::fits(n) {
        return Err(Refusal::Long);
    }
    let at = chain::reach(pool, shape, head, n)?;
    if chain::in_first(pool, shape, head, n) {
        return Ok(answer::done(pool, shape, s.slip, 0));
    }
    let wanted = rest::wanted(at) + 1;
    let room = front::room_in_front(pool, shape, head, wanted).map_err(|_| Refusal::Pieces)?;
    let b: BufferNumber = room::lowest(pool, shape).ok_or(Refusal::Buffers)?;
    pull(pool, shape, storage, s.slip, n, head, at, room, b);
    Ok(answer::done(pool, shape, s.slip, 0))
}
