// The making of chains: a new piece, one reference more, new pieces for a range or on free buffers.
#![tactic(auto, using(tables::proofs::Laws::totals, room::proofs::Free::first_lies, room::proofs::Free::lowest_some))]

ghost use Rattle.std.specs.Prelude.{◌≡◌, ◌-◌, ◌≤◌, ◌<◌, length};
ghost use Rattle.kinds.specs.SlipState.{state_of};
ghost use Rattle.rules.specs.Basics.{Is};
ghost use Rattle.rules.specs.Tables.{piece, buffer_count, piece_total, buffer_total, slip, name_of, holding, set_slip};
ghost use Rattle.rules.specs.Bytes.{decode};
ghost use Rattle.rules.specs.Chain.{cut_out};
ghost use Rattle.rules.specs.Sound.{link_ok};
ghost use Rattle.rules.specs.Room.{is_free, is_unheld, free_pieces, free_buffers, new_buffers};
ghost use Rattle.rules.specs.Release.{shared};
ghost use Rattle.rules.specs.Build.{taken, fresh, built, built_link, laid};
ghost use Rattle.tables.specs.Shape.{Shaped, Becomes};
ghost use Rattle.tables.specs.Window.{window_of};
ghost use Rattle.chain.specs.Opened.{Opened};
ghost use Rattle.chain.specs.Length.{stretches_from};
ghost use Rattle.room.specs.Free.{lowest_for};
ghost use Rattle.build.specs.Share.{Sharable};
ghost use Rattle.build.specs.Line.{link_in_line, in_line};
ghost use Rattle.build.specs.Clone.{stretch_at, next_part, cloned, Clonable};
ghost use Rattle.build.specs.Laid.{laid_at, laid_on, Layable};

use kinds::{BufferNumber, PieceNumber, SlipNumber, Step};
use layout::Shape;
use tables::{Entry, Window};

// How far copying is: the free piece to take, the link to the piece to copy, the bytes of it to skip, and the bytes still to come (a cursor).
#[derive(Clone, Copy)]
struct Cloning {
    free: PieceNumber,
    at: u16,
    skip: u32,
    left: u32,
}

// How far laying is: the free piece to take, the number from which the next free buffer is looked for, and the bytes still to come (a cursor).
#[derive(Clone, Copy)]
struct Laying {
    free: PieceNumber,
    from: BufferNumber,
    left: u32,
}

// What comes after a new piece in line: the next piece to take, and the link to it (a look-ahead).
#[derive(Clone, Copy)]
struct InLine {
    free: PieceNumber,
    link: u16,
}

// The free piece `f` becomes a new piece of count 1, and its buffer's count rises by 1: a descriptor taken.
pub fn take_piece(pool: &mut [u8], shape: Shape, f: PieceNumber, window: Window, next: u16)
    requires { Shaped pool.old shape × (f.0 < shape.pieces) × (window.buffer.0 < shape.buffers)
        × (buffer_count (decode pool.old) window.buffer.0 < 65535) }
    ensures { Becomes pool.old pool.new shape (λ T. taken T f.0 (fresh (window_of window) next)) }
{
    let m = tables::buffer_count(pool, shape, window.buffer);
    tables::set_buffer_count(pool, shape, window.buffer, m + 1);
    let entry = Entry {
        count: 1,
        buffer: window.buffer,
        offset: window.offset,
        len: window.len,
        next,
    };
    tables::set_piece(pool, shape, f, entry);
}

// One reference more to where `link` leads, 0 none and 1 + d piece d: a reference count raised.
pub fn share(pool: &mut [u8], shape: Shape, link: u16)
    requires { Shaped pool.old shape × Sharable (decode pool.old) link }
    ensures { Becomes pool.old pool.new shape (λ T. shared T link) }
{
    if link == 0 {
        return;
    }
    let d = PieceNumber(link - 1);
    let n = tables::piece_count(pool, shape, d);
    tables::set_piece_count(pool, shape, d, n + 1);
}

// The piece after `f` in line and the link to it, where `more` are to come; `f` and `tail` where none is: a free descriptor looked ahead for.
fn in_line(pool: &[u8], shape: Shape, f: PieceNumber, more: u16, tail: u16) -> InLine
    requires { Shaped pool.now shape × (f.0 < shape.pieces) × (shape.pieces < 65535) }
    ensures { result ≡ in_line (decode pool.now) f.0 more tail }
{
    if more == 0 {
        return InLine {
            free: f,
            link: tail,
        };
    }
    let g = room::next_free(pool, shape, PieceNumber(f.0 + 1));
    InLine {
        free: g,
        link: g.0 + 1,
    }
}

// Takes a new piece for what the range has of the piece to copy, `more` to come after it; answers how far copying is then: a descriptor cloned.
fn clone_piece(pool: &mut [u8], shape: Shape, c: Cloning, more: u16, tail: u16) -> Cloning
    requires { Shaped pool.old shape × (shape.pieces < 65535) × Clonable (decode pool.old) c }
    ensures { Becomes pool.old pool.new shape
        (λ T. taken T c.free.0 (fresh (next_part (stretch_at T c.at) c) (link_in_line T c.free.0 more tail)))
        × (result ≡ cloned (decode pool.old) c more) }
{
    let line = in_line(pool, shape, c.free, more, tail);
    let d = PieceNumber(c.at - 1);
    let w = tables::piece_window(pool, shape, d);
    let next = tables::piece_next(pool, shape, d);
    let length = c.left.min(w.len as u32 - c.skip);
    let part = Window {
        buffer: w.buffer,
        offset: w.offset + c.skip as u16,
        len: length as u16,
    };
    take_piece(pool, shape, c.free, part, line.link);
    Cloning {
        free: line.free,
        at: next,
        skip: 0,
        left: c.left - length,
    }
}

// New pieces for the `n` bytes that start `into` bytes into the chain from `link`, on the same buffers, taken from the lowest free
// piece `first` on, before the link `tail`; answers the link to the first: descriptors cloned over shared clusters.
pub fn copy_pieces(
    pool: &mut [u8],
    shape: Shape,
    link: u16,
    into: u32,
    n: u32,
    pieces: u16,
    first: PieceNumber,
    tail: u16,
) -> u16
    requires opened { Opened pool.old shape × Is (link_ok (decode pool.old) link) }
    requires pieces_value { (pieces ≡ length (cut_out (stretches_from (decode pool.old) link) into n)) × (pieces ≤ length (free_pieces (decode pool.old))) }
    requires into_bound { (link ≡ 0 → ⊥) → into < (piece (decode pool.old) (link - 1)).len }
    requires first_value { first.0 ≡ lowest_for (is_free (decode pool.old)) pieces (piece_total (decode pool.old)) }
    ensures { Becomes pool.old pool.new shape (λ T. built T (free_pieces T) (cut_out (stretches_from T link) into n) tail)
        × (result ≡ built_link (free_pieces (decode pool.old)) (cut_out (stretches_from (decode pool.old) link) into n) tail) }
{
    if pieces == 0 {
        return tail;
    }
    let mut c = Cloning {
        free: first,
        at: link,
        skip: into,
        left: n,
    };
    for more in (0..pieces).rev() {
        c = clone_piece(pool, shape, c, more, tail);
    }
    first.0 + 1
}

// Takes a new piece on the lowest free buffer, `more` to come after it; answers how far laying is then: a descriptor over a fresh cluster.
fn lay_piece(pool: &mut [u8], shape: Shape, c: Laying, more: u16) -> Laying
    requires { Shaped pool.old shape × (shape.pieces < 65535) × Layable (decode pool.old) c }
    ensures { Becomes pool.old pool.new shape (λ T. taken T c.free.0 (fresh (laid_at T c) (link_in_line T c.free.0 more 0)))
        × (result ≡ laid_on (decode pool.old) c more) }
{
    let buffer = room::next_free(pool, shape, c.from);
    let length = (BufferNumber::SIZE as u32).min(c.left);
    let line = in_line(pool, shape, c.free, more, 0);
    let window = Window {
        buffer,
        offset: 0,
        len: length as u16,
    };
    take_piece(pool, shape, c.free, window, line.link);
    let left = c.left - length;
    Laying {
        free: line.free,
        from: BufferNumber(buffer.0 + 1),
        left,
    }
}

// New pieces for `n` bytes, taken from the lowest free piece `first` on, on the `count` lowest free buffers, from `buffer` on,
// from offset 0, each full but the last; answers the link to the first: descriptors over fresh clusters.
pub fn lay(
    pool: &mut [u8],
    shape: Shape,
    n: u32,
    count: u16,
    first: PieceNumber,
    buffer: BufferNumber,
) -> u16
    requires opened { Opened pool.old shape }
    requires count_in_bounds { (count ≤ length (free_pieces (decode pool.old))) × (count ≤ length (free_buffers (decode pool.old))) }
    requires first_value { (first.0 ≡ lowest_for (is_free (decode pool.old)) count (piece_total (decode pool.old)))
        × (buffer.0 ≡ lowest_for (is_unheld (decode pool.old)) count (buffer_total (decode pool.old))) }
    ensures { Becomes pool.old pool.new shape
        (λ T. built T (free_pieces T) (laid T.stock (new_buffers T count) n) 0)
        × (result ≡ built_link (free_pieces (decode pool.old))
        (laid (decode pool.old).stock (new_buffers (decode pool.old) count) n) 0) }
{
    if count == 0 {
        return 0;
    }
    let mut c = Laying {
        free: first,
        from: buffer,
        left: n,
    };
    for more in (0..count).rev() {
        c = lay_piece(pool, shape, c, more);
    }
    first.0 + 1
}

// The vacant slip `t` takes the chain that starts at `link`, and its number with its serial is the answer: a new handle.
pub fn under_new(pool: &mut [u8], shape: Shape, t: SlipNumber, link: u16) -> Step
    requires { Shaped pool.old shape × (t.0 < shape.slips) × (link < 65535) }
    ensures becomes { Becomes pool.old pool.new shape (λ T. set_slip T t.0 (holding link)) }
    ensures value { result ≡ record { state = state_of (slip (decode pool.new) t.0); number = name_of (decode pool.old) t.0 } }
{
    tables::set_slip(pool, shape, t, link + 1);
    let serial = tables::serial(pool, shape, t);
    answer::done(pool, shape, t, t.named(serial))
}
