// Release of references: what no reference leads to is freed, and a buffer that no piece lies on any more is cleaned.
#![tactic(auto, using(tables::proofs::Laws::totals, crate::proofs::Laws::moves))]

ghost use Rattle.std.specs.Prelude.{◌≡◌, ◌<◌, ◌≤◌, pred};
ghost use Rattle.rules.specs.Tables.{piece, set_piece, with_next};
ghost use Rattle.rules.specs.Bytes.{decode};
ghost use Rattle.rules.specs.Chain.{state_of};
ghost use Rattle.rules.specs.Release.{freed};
ghost use Rattle.tables.specs.Shape.{Shaped, Becomes, Backs};
ghost use Rattle.release.specs.Release.{bare, Held, Releasable, stepped, step_next, released, turned_to, relinked_to};
ghost use Rattle.release.specs.Release.{stepped_storage, released_storage, turned_storage, relinked_storage};
ghost use Rattle.release.specs.Hang.{Hangable, hung_to, hung_storage};

use kinds::{PieceNumber, SlipNumber};
use layout::Shape;

// Frees piece `d`, and cleans its buffer where no other piece lies on it; returns the link behind it: a descriptor freed, and its data with the last.
fn free_piece(pool: &mut [u8], shape: Shape, storage: &mut [u8], d: PieceNumber) -> u16
    requires { Shaped pool.old shape × Held (decode pool.old) d.0 × Backs storage.old shape }
    ensures { Becomes pool.old pool.new shape (λ T. (freed (bare T) d.0).tables)
        × (storage.new ≡ (freed (state_of (decode pool.old) storage.old) d.0).storage)
        × (result ≡ (piece (decode pool.old) d.0).next) }
{
    let b = tables::piece_buffer(pool, shape, d);
    let next = tables::piece_next(pool, shape, d);
    let n = tables::buffer_count(pool, shape, b) - 1;
    tables::set_buffer_count(pool, shape, b, n);
    tables::clear_piece(pool, shape, d);
    if n == 0 {
        storage::clean_buffer(storage, b);
    }
    next
}

// Gives up one reference to piece `d` and returns the link to give up next, 0 none: a count lowered, or a descriptor freed.
pub fn give_up(pool: &mut [u8], shape: Shape, storage: &mut [u8], d: PieceNumber) -> u16
    requires { Shaped pool.old shape × Held (decode pool.old) d.0 × Backs storage.old shape }
    ensures { Becomes pool.old pool.new shape (λ T. stepped T d.0)
        × (storage.new ≡ stepped_storage (decode pool.old) storage.old d.0)
        × (result ≡ step_next (decode pool.old) d.0) }
{
    let n = tables::piece_count(pool, shape, d);
    if 1 < n {
        tables::set_piece_count(pool, shape, d, n - 1);
        return 0;
    }
    free_piece(pool, shape, storage, d)
}

// Releases a reference to `link`, 0 none and 1 + d piece d: bf_afree, as a loop over single steps.
pub fn release(pool: &mut [u8], shape: Shape, storage: &mut [u8], link: u16)
    requires { Shaped pool.old shape × Releasable (decode pool.old) link × Backs storage.old shape }
    ensures { Becomes pool.old pool.new shape (λ T. released T link)
        × (storage.new ≡ released_storage (decode pool.old) storage.old link) }
{
    let mut next = link;
    while next != 0 {
        next = give_up(pool, shape, storage, PieceNumber(next - 1));
    }
}

// Slip `s` takes the entry `v`, and the link that it held is released: a handle turned to another chain.
pub fn turn(pool: &mut [u8], shape: Shape, storage: &mut [u8], s: SlipNumber, v: u16)
    requires { Shaped pool.old shape × (s.0 < shape.slips) × Releasable (decode pool.old) (pred v)
        × Backs storage.old shape }
    ensures { Becomes pool.old pool.new shape (λ T. turned_to T s.0 v)
        × (storage.new ≡ turned_storage (decode pool.old) storage.old s.0 v) }
{
    let old = chain::head_link(pool, shape, s);
    tables::set_slip(pool, shape, s, v);
    release(pool, shape, storage, old);
}

// Piece `l` takes the next `n`, and its old next is released: a tail put in another's place.
pub fn relink(pool: &mut [u8], shape: Shape, storage: &mut [u8], l: PieceNumber, n: u16)
    requires { Shaped pool.old shape × (l.0 < shape.pieces)
        × Releasable (set_piece (decode pool.old) l.0 (with_next (piece (decode pool.old) l.0) n)) (piece (decode pool.old) l.0).next
        × Backs storage.old shape }
    ensures { Becomes pool.old pool.new shape (λ T. relinked_to T l.0 n)
        × (storage.new ≡ relinked_storage (decode pool.old) storage.old l.0 n) }
{
    let old = tables::piece_next(pool, shape, l);
    tables::set_piece_next(pool, shape, l, n);
    release(pool, shape, storage, old);
}

// The link `n` goes behind the piece that `last` leads to, or under slip `s` where that is 0,
// and what stood there is released: a tail put behind a run of own pieces.
pub fn hang(pool: &mut [u8], shape: Shape, storage: &mut [u8], s: SlipNumber, last: u16, n: u16)
    requires { Shaped pool.old shape × (s.0 < shape.slips) × (last ≤ shape.pieces) × (n < 65535) × Hangable (decode pool.old) last n
        × Backs storage.old shape }
    ensures { Becomes pool.old pool.new shape (λ T. hung_to T s.0 last n)
        × (storage.new ≡ hung_storage (decode pool.old) storage.old s.0 last n) }
{
    if last == 0 {
        turn(pool, shape, storage, s, n + 1);
    } else {
        relink(pool, shape, storage, PieceNumber(last - 1), n);
    }
}
