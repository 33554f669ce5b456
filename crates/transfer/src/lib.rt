// The bytes of chains: copied out to a lent slice, and filled into free buffers.
#![tactic(auto)]

ghost use Rattle.std.specs.Prelude.{◌≡◌, ◌+◌, ◌-◌, ◌<◌, ◌≤◌, min, length, take, drop};
ghost use Rattle.kinds.specs.Limits.{buffer_size};
ghost use Rattle.rules.specs.Basics.{Is};
ghost use Rattle.rules.specs.Tables.{piece, buffer_total};
ghost use Rattle.rules.specs.Bytes.{decode};
ghost use Rattle.rules.specs.Chain.{stretch, total, position_of, contents};
ghost use Rattle.rules.specs.Sound.{link_ok};
ghost use Rattle.rules.specs.Room.{is_unheld, free_buffers, new_buffers};
ghost use Rattle.rules.specs.Storage.{filled};
ghost use Rattle.rules.specs.Build.{buffers_for, stored};
ghost use Rattle.rules.specs.Read.{copied};
ghost use Rattle.tables.specs.Shape.{Shaped, Backs};
ghost use Rattle.chain.specs.Opened.{Opened};
ghost use Rattle.chain.specs.Length.{stretches_from};
ghost use Rattle.room.specs.Free.{lowest_for};
ghost use Rattle.transfer.specs.Behind.{InPiece, extent_at, advanced, behind};

use kinds::{BufferNumber, PieceNumber};
use layout::Shape;

// The bytes of a buffer, to count and to index by.
const SIZE: usize = BufferNumber::SIZE as usize;

// A place in a chain, the link to a piece and the bytes of it before the place: a cursor.
#[derive(Clone, Copy)]
pub struct Cursor {
    pub link: u16,
    pub into: u32,
}

// Bytes of a chain that lie together in storage, where they start and how many: an extent.
#[derive(Clone, Copy)]
struct Extent {
    start: usize,
    count: u32,
}

// The byte of storage at which the stretch of piece `d` starts: its data pointer.
#[tactic(auto, using(kinds::proofs::Sizes::start_one))]
pub fn position(pool: &[u8], shape: Shape, d: PieceNumber) -> usize
    requires { Shaped pool.now shape × (d.0 < shape.pieces) }
    ensures { result ≡ position_of (decode pool.now).stock (stretch (piece (decode pool.now) d.0)) }
{
    let start = tables::piece_buffer(pool, shape, d).start();
    start + tables::piece_offset(pool, shape, d) as usize
}

// The place `k` bytes behind the place `c`, at most at the end of its piece, which is the start of the next one: a cursor advanced.
fn advance(pool: &[u8], shape: Shape, c: Cursor, k: u32) -> Cursor
    requires shaped { Shaped pool.now shape × (c.link ≤ shape.pieces) × (c.link ≡ 0 → ⊥) }
    requires k_bound { c.into + k ≤ (piece (decode pool.now) (c.link - 1)).len }
    ensures { result ≡ advanced (decode pool.now) c k }
{
    let d = PieceNumber(c.link - 1);
    let length = tables::piece_length(pool, shape, d) as u32;
    let into = c.into + k;
    if into < length {
        return Cursor { link: c.link, into };
    }
    Cursor {
        link: tables::piece_next(pool, shape, d),
        into: 0,
    }
}

// The bytes from the place `c` on that its piece has, at most `most`: a gather's next extent.
fn extent_at(pool: &[u8], shape: Shape, c: Cursor, most: u32) -> Extent
    requires shaped { Shaped pool.now shape × (c.link ≤ shape.pieces) × (c.link ≡ 0 → ⊥) }
    requires into_bound { c.into ≤ (piece (decode pool.now) (c.link - 1)).len }
    ensures { result ≡ extent_at (decode pool.now) c most }
{
    let d = PieceNumber(c.link - 1);
    let length = tables::piece_length(pool, shape, d) as u32;
    let count = most.min(length - c.into);
    let start = position(pool, shape, d) + c.into as usize;
    Extent { start, count }
}

// Copies the `n` bytes from the place `c` on to the front of `output`, one piece after another, and answers the place behind them: a gather.
pub fn copy_out(
    pool: &[u8],
    shape: Shape,
    storage: &[u8],
    c: Cursor,
    n: u32,
    output: &mut [u8],
) -> Cursor
    requires opened { Opened pool.now shape × Is (link_ok (decode pool.now) c.link) × InPiece (decode pool.now) c }
    requires backs { Backs storage.now shape }
    requires n_bound { (c.into + n ≤ total (stretches_from (decode pool.now) c.link)) × (n ≤ length output.old) }
    ensures output_after { output.new
        ≡ copied (take n (drop c.into
        (contents (decode pool.now).stock storage.now (stretches_from (decode pool.now) c.link)))) output.old }
    ensures value { result ≡ behind (decode pool.now) c n }
{
    let mut g = c;
    let mut left = n;
    let mut at = 0;
    while 0 < left {
        let x = extent_at(pool, shape, g, left);
        storage::copy_part(output, at, storage, x.start, x.count as usize);
        left -= x.count;
        at += x.count as usize;
        g = advance(pool, shape, g, x.count);
    }
    g
}

// Fills the lowest free buffers, from `buffer` on, with `input`, in order, and the rest of the last with zeros: a scatter to fresh clusters.
pub fn fill_free(pool: &[u8], shape: Shape, storage: &mut [u8], input: &[u8], buffer: BufferNumber)
    requires shaped { Shaped pool.now shape × Backs storage.old shape }
    requires input_in_bounds { buffers_for (length input.now) ≤ length (free_buffers (decode pool.now)) }
    requires buffer_value { buffer.0 ≡ lowest_for (is_unheld (decode pool.now)) (buffers_for (length input.now)) (buffer_total (decode pool.now)) }
    ensures { storage.new
        ≡ stored (decode pool.now).stock storage.old (new_buffers (decode pool.now) (buffers_for (length input.now)))
        input.now }
{
    let mut from = buffer;
    for part in input.chunks(SIZE) {
        let to = room::next_free(pool, shape, from);
        storage::fill_buffer(storage, to, part);
        from = BufferNumber(to.0 + 1);
    }
}

// Fills the free buffer `b` with the `n` bytes of a chain from the place `c` on, one piece after
// another, and then zeros; answers the place behind them: one cluster of a gather.
fn refill_buffer(
    pool: &[u8],
    shape: Shape,
    storage: &mut [u8],
    c: Cursor,
    n: u32,
    b: BufferNumber,
) -> Cursor
    requires opened { Opened pool.now shape × Is (link_ok (decode pool.now) c.link) × InPiece (decode pool.now) c }
    requires backs { Backs storage.old shape × (b.0 < shape.buffers)
        × Is (is_unheld (decode pool.now) b.0) }
    requires n_bound { (c.into + n ≤ total (stretches_from (decode pool.now) c.link)) × (n ≤ buffer_size) }
    ensures storage_after { storage.new
        ≡ filled (decode pool.now).stock storage.old b.0
        (take n (drop c.into (contents (decode pool.now).stock storage.old
        (stretches_from (decode pool.now) c.link)))) }
    ensures value { result ≡ behind (decode pool.now) c n }
{
    let mut g = c;
    let mut left = n;
    let mut at = 0;
    while 0 < left {
        let x = extent_at(pool, shape, g, left);
        storage::fill_part(storage, b, at, x.start, x.count as usize);
        left -= x.count;
        at += x.count as usize;
        g = advance(pool, shape, g, x.count);
    }
    storage::fill_rest(storage, b, n as usize);
    g
}

// Fills the lowest free buffers, from `buffer` on, with the first `n` bytes of the chain from
// `link`, in order, and the rest of the last with zeros: a gather into fresh clusters.
pub fn refill(
    pool: &[u8],
    shape: Shape,
    storage: &mut [u8],
    link: u16,
    n: u32,
    buffer: BufferNumber,
)
    requires opened { Opened pool.now shape × Is (link_ok (decode pool.now) link) }
    requires backs { Backs storage.old shape × (n ≤ total (stretches_from (decode pool.now) link)) }
    requires n_in_bounds { buffers_for n ≤ length (free_buffers (decode pool.now)) }
    requires buffer_value { buffer.0 ≡ lowest_for (is_unheld (decode pool.now)) (buffers_for n) (buffer_total (decode pool.now)) }
    ensures { storage.new
        ≡ stored (decode pool.now).stock storage.old (new_buffers (decode pool.now) (buffers_for n))
        (take n (contents (decode pool.now).stock storage.old (stretches_from (decode pool.now) link))) }
{
    let mut c = Cursor { link, into: 0 };
    let mut left = n;
    let mut from = buffer;
    while 0 < left {
        let b = room::next_free(pool, shape, from);
        let m = left.min(BufferNumber::SIZE as u32);
        c = refill_buffer(pool, shape, storage, c, m, b);
        left -= m;
        from = BufferNumber(b.0 + 1);
    }
}
