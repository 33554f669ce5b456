// Room for new pieces, where the own pieces at the front of a chain are given back first.
#![tactic(auto)]

ghost use Rattle.std.specs.Prelude.{◌≤◌};
ghost use Rattle.rules.specs.Basics.{Is};
ghost use Rattle.rules.specs.Bytes.{decode};
ghost use Rattle.rules.specs.Sound.{link_ok};
ghost use Rattle.tables.specs.Shape.{Shaped};
ghost use Rattle.chain.specs.Opened.{Opened};
ghost use Rattle.front.specs.Front.{RoomBeside, RoomInFront, RoomThere};

use kinds::PieceNumber;
use layout::Shape;

// Once the front is given back, none is free below `from` or between it and `beyond`: where a free-list probe starts, and where it goes on.
#[derive(Clone, Copy)]
pub struct FrontRoom {
    pub from: PieceNumber,
    pub beyond: PieceNumber,
}

// Nowhere in particular: none is free below number 0.
const ANYWHERE: FrontRoom = FrontRoom {
    from: PieceNumber(0),
    beyond: PieceNumber(0),
};

// Where two pieces are there with `d`, which is given back, and as an error where there are fewer: a room test for two.
fn beside(pool: &[u8], shape: Shape, d: PieceNumber) -> Result<FrontRoom, FrontRoom>
    requires { Shaped pool.now shape }
    ensures { RoomThere (RoomBeside (decode pool.now) d.0) result }
{
    let free: PieceNumber = room::lowest(pool, shape).ok_or(ANYWHERE)?;
    Ok(FrontRoom {
        from: PieceNumber(free.0.min(d.0)),
        beyond: free,
    })
}

// Where `wanted` pieces, 2 at most, are there once the own ones from `head` on are given back, and as an error where there are fewer:
// a room test that counts what the call frees.
pub fn room_in_front(
    pool: &[u8],
    shape: Shape,
    head: u16,
    wanted: u16,
) -> Result<FrontRoom, FrontRoom>
    requires { Opened pool.now shape × Is (link_ok (decode pool.now) head) × (wanted ≤ 2) }
    ensures { RoomThere (RoomInFront (decode pool.now) head wanted) result }
{
    if !own::single(pool, shape, head) {
        let lowest = room::room_for(pool, shape, wanted as usize).ok_or(ANYWHERE)?;
        return Ok(FrontRoom {
            from: lowest,
            beyond: lowest,
        });
    }
    let first = PieceNumber(head - 1);
    if wanted == 2 && !own::single(pool, shape, tables::piece_next(pool, shape, first)) {
        return beside(pool, shape, first);
    }
    Ok(ANYWHERE)
}
