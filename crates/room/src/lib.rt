// What is free: the lowest free numbers, and tests of room.
#![tactic(auto)]

ghost use Rattle.std.specs.Prelude.{◌≡◌, Bool, List, ℕ, ◌<◌};
ghost use Rattle.rules.specs.Tables.{Tables, slip_total, piece_total, buffer_total};
ghost use Rattle.rules.specs.Bytes.{decode};
ghost use Rattle.rules.specs.Room.{is_ready, is_free, is_unheld};
ghost use Rattle.rules.specs.Build.{buffers_for};
ghost use Rattle.tables.specs.Shape.{Shaped};
ghost use Rattle.room.specs.Free.{first_from, enough_from, LowestIn, RoomIn};

use kinds::{BufferNumber, Number, PieceNumber, SlipNumber};
use layout::Shape;

// The bytes of a buffer, to count by.
const SIZE: usize = BufferNumber::SIZE as usize;

// A kind of number that is given lowest first, slips, pieces and buffers: a first-fit allocator's index.
pub trait Numbered: Number {
    // How many of its kind a pool's tables have, and whether one of them may be given.
    ghost total: { Tables → ℕ };

    ghost free: { Tables → ℕ → Bool };

    // How many a pool of this shape has: a table size.
    fn total(shape: Shape) -> u16
        ensures { (p : List ℕ) → Shaped p shape → result ≡ total (decode p) };

    // Whether `n` may be given: a free-list probe of one entry.
    fn free(pool: &[u8], shape: Shape, n: Self) -> bool
        requires { Shaped pool.now shape × (Self.number n < total (decode pool.now)) }
        ensures { result ≡ free (decode pool.now) (Self.number n) };
}

// A slip may be given where it is vacant and not spent: a free handle with a generation left.
impl Numbered for SlipNumber {
    ghost total = { slip_total };

    ghost free = { is_ready };

    fn total(shape: Shape) -> u16 {
        shape.slips
    }

    fn free(pool: &[u8], shape: Shape, n: SlipNumber) -> bool {
        tables::slip(pool, shape, n) == 0 && !tables::serial(pool, shape, n).last()
    }
}

// A piece may be given where its count is 0: a free descriptor.
impl Numbered for PieceNumber {
    ghost total = { piece_total };

    ghost free = { is_free };

    fn total(shape: Shape) -> u16 {
        shape.pieces
    }

    fn free(pool: &[u8], shape: Shape, n: PieceNumber) -> bool {
        tables::piece_count(pool, shape, n) == 0
    }
}

// A buffer may be given where its count is 0: a free cluster.
impl Numbered for BufferNumber {
    ghost total = { buffer_total };

    ghost free = { is_unheld };

    fn total(shape: Shape) -> u16 {
        shape.buffers
    }

    fn free(pool: &[u8], shape: Shape, n: BufferNumber) -> bool {
        tables::buffer_count(pool, shape, n) == 0
    }
}

// The lowest from `from` on that may be given, or the count of them all: a scan for a free entry.
#[tactic(auto, using(crate::proofs::Free::firsts))]
pub fn next_free<N: Numbered>(pool: &[u8], shape: Shape, from: N) -> N
    requires { Shaped pool.now shape }
    ensures { N.number result ≡ first_from (N.free (decode pool.now)) (N.number from) (N.total (decode pool.now)) }
{
    let total = N::total(shape);
    for n in from.number()..total {
        if N::free(pool, shape, N::at(n)) {
            return N::at(n);
        }
    }
    N::at(total)
}

// The lowest that may be given, or nothing where none may: a first-fit search.
pub fn lowest<N: Numbered>(pool: &[u8], shape: Shape) -> Option<N>
    requires { Shaped pool.now shape }
    ensures { LowestIn N.number (N.free (decode pool.now)) (N.total (decode pool.now)) result }
{
    let first = next_free(pool, shape, N::at(0));
    first.below(N::total(shape)).then_some(first)
}

// Whether at least `k` may be given from `lowest` on, by a scan that stops at the k-th: a count of free entries.
#[tactic(auto, using(crate::proofs::Free::enoughs))]
fn enough<N: Numbered>(pool: &[u8], shape: Shape, lowest: N, k: usize) -> bool
    requires { Shaped pool.now shape × (0 < k) }
    ensures { result ≡ enough_from (N.free (decode pool.now)) k (N.number lowest) (N.total (decode pool.now)) }
{
    let mut left = k;
    for n in lowest.number()..N::total(shape) {
        if N::free(pool, shape, N::at(n)) {
            left -= 1;
            if left == 0 {
                return true;
            }
        }
    }
    false
}

// The lowest that may be given, where `k` may, and nothing where fewer may; number 0 where none is wanted: a room test.
pub fn room_for<N: Numbered>(pool: &[u8], shape: Shape, k: usize) -> Option<N>
    requires { Shaped pool.now shape }
    ensures { RoomIn N.number (N.free (decode pool.now)) k (N.total (decode pool.now)) result }
{
    if k == 0 {
        return Some(N::at(0));
    }
    let first = lowest(pool, shape)?;
    enough(pool, shape, first, k).then_some(first)
}

// How many buffers `n` bytes need: a ceiling division.
pub fn buffers_for(n: usize) -> usize
    ensures { result ≡ buffers_for n }
{
    n.div_ceil(SIZE)
}
