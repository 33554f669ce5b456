// The pool's tables in lent bytes: every entry is loaded and stored here and nowhere else.
#![tactic(auto, using(crate::proofs::Laws::loads))]

ghost use Rattle.std.specs.Prelude.{◌≡◌, pred, ◌<◌, ◌≤◌, ◌∷◌, ◌++◌, length};
ghost use Rattle.kinds.specs.SlipState.{state_of};
ghost use Rattle.rules.specs.Tables.{blank, slip, serial, piece, buffer_count};
ghost use Rattle.rules.specs.Tables.{set_slip, set_serial, aged, set_piece, with_count, with_next, with_place, set_count};
ghost use Rattle.rules.specs.Chain.{stretch};
ghost use Rattle.rules.specs.Bytes.{decode};
ghost use Rattle.tables.specs.Entry.{piece_of};
ghost use Rattle.tables.specs.Window.{window_of};
ghost use Rattle.tables.specs.Shape.{Shaped, Becomes, with_base};

use kinds::{BufferNumber, PieceNumber, Serial, SlipNumber, SlipState};
use layout::Shape;

// The five numbers of a piece: a segment descriptor, loaded.
#[derive(Clone, Copy, Default, PartialEq, Eq)]
pub struct Entry {
    pub count: u16,
    pub buffer: BufferNumber,
    pub offset: u16,
    pub len: u16,
    pub next: u16,
}

// The part of a buffer that a piece covers: a data window.
#[derive(Clone, Copy, Default, PartialEq, Eq)]
pub struct Window {
    pub buffer: BufferNumber,
    pub offset: u16,
    pub len: u16,
}

// What the entry of slip `s` says, as a number: a handle table load.
pub fn slip(pool: &[u8], shape: Shape, s: SlipNumber) -> u16
    requires { Shaped pool.now shape × (s.0 < shape.slips) }
    ensures { result ≡ slip (decode pool.now) s.0 }
{
    word::get16(pool, layout::slip_at(s))
}

// What slip `s` holds: a tagged handle.
pub fn slip_state(pool: &[u8], shape: Shape, s: SlipNumber) -> SlipState
    requires { Shaped pool.now shape × (s.0 < shape.slips) }
    ensures { result ≡ state_of (slip (decode pool.now) s.0) }
{
    slip(pool, shape, s).into()
}

// The serial of slip `s`: a handle's generation.
pub fn serial(pool: &[u8], shape: Shape, s: SlipNumber) -> Serial
    requires { Shaped pool.now shape × (s.0 < shape.slips) }
    ensures { result ≡ record { 0 = serial (decode pool.now) s.0 } }
{
    Serial(word::get16(pool, layout::slip_at(s) + 2))
}

// The link that a slip's entry holds.
pub fn link_of(raw: u16) -> u16
    ensures { result ≡ pred raw }
{
    raw.saturating_sub(1)
}

// The count of piece `d`: its reference count.
pub fn piece_count(pool: &[u8], shape: Shape, d: PieceNumber) -> u16
    requires { Shaped pool.now shape × (d.0 < shape.pieces) }
    ensures { result ≡ (piece (decode pool.now) d.0).count }
{
    word::get16(pool, layout::piece_at(shape, d))
}

// The buffer that piece `d` lies on: its cluster.
pub fn piece_buffer(pool: &[u8], shape: Shape, d: PieceNumber) -> BufferNumber
    requires { Shaped pool.now shape × (d.0 < shape.pieces) }
    ensures { result ≡ record { 0 = (piece (decode pool.now) d.0).buffer } }
{
    BufferNumber(word::get16(pool, layout::piece_at(shape, d) + 2))
}

// The offset of piece `d` in its buffer: where its data starts.
pub fn piece_offset(pool: &[u8], shape: Shape, d: PieceNumber) -> u16
    requires { Shaped pool.now shape × (d.0 < shape.pieces) }
    ensures { result ≡ (piece (decode pool.now) d.0).offset }
{
    word::get16(pool, layout::piece_at(shape, d) + 4)
}

// The length of piece `d`: its data length.
pub fn piece_length(pool: &[u8], shape: Shape, d: PieceNumber) -> u16
    requires { Shaped pool.now shape × (d.0 < shape.pieces) }
    ensures { result ≡ (piece (decode pool.now) d.0).len }
{
    word::get16(pool, layout::piece_at(shape, d) + 6)
}

// What follows piece `d`, 0 none and 1 + e piece e: its link.
pub fn piece_next(pool: &[u8], shape: Shape, d: PieceNumber) -> u16
    requires { Shaped pool.now shape × (d.0 < shape.pieces) }
    ensures { result ≡ (piece (decode pool.now) d.0).next }
{
    word::get16(pool, layout::piece_at(shape, d) + 8)
}

// The part of its buffer that piece `d` covers: its data window.
pub fn piece_window(pool: &[u8], shape: Shape, d: PieceNumber) -> Window
    requires { Shaped pool.now shape × (d.0 < shape.pieces) }
    ensures { window_of result ≡ stretch (piece (decode pool.now) d.0) }
{
    Window {
        buffer: piece_buffer(pool, shape, d),
        offset: piece_offset(pool, shape, d),
        len: piece_length(pool, shape, d),
    }
}

// The entry of piece `d`.
pub fn entry_of(pool: &[u8], shape: Shape, d: PieceNumber) -> Entry
    requires { Shaped pool.now shape × (d.0 < shape.pieces) }
    ensures { piece_of result ≡ piece (decode pool.now) d.0 }
{
    let w = piece_window(pool, shape, d);
    Entry {
        count: piece_count(pool, shape, d),
        buffer: w.buffer,
        offset: w.offset,
        len: w.len,
        next: piece_next(pool, shape, d),
    }
}

// The count of buffer `b`: the reference count of a cluster.
pub fn buffer_count(pool: &[u8], shape: Shape, b: BufferNumber) -> u16
    requires { Shaped pool.now shape × (b.0 < shape.buffers) }
    ensures { result ≡ buffer_count (decode pool.now) b.0 }
{
    word::get16(pool, layout::count_at(shape, b))
}

// Sets the entry of slip `s`: a handle table store.
pub fn set_slip(pool: &mut [u8], shape: Shape, s: SlipNumber, v: u16)
    requires { Shaped pool.old shape × (s.0 < shape.slips) }
    ensures { Becomes pool.old pool.new shape (λ T. set_slip T s.0 v) }
{
    word::set16(pool, layout::slip_at(s), v);
}

// Sets the serial of slip `s`: a generation store.
fn set_serial(pool: &mut [u8], shape: Shape, s: SlipNumber, k: Serial)
    requires { Shaped pool.old shape × (s.0 < shape.slips) }
    ensures { Becomes pool.old pool.new shape (λ T. set_serial T s.0 k.0) }
{
    word::set16(pool, layout::slip_at(s) + 2, k.0);
}

// Moves the serial of slip `s` up by 1, never past the last: a new generation.
pub fn age(pool: &mut [u8], shape: Shape, s: SlipNumber)
    requires { Shaped pool.old shape × (s.0 < shape.slips) }
    ensures { Becomes pool.old pool.new shape (λ T. aged T s.0) }
{
    let k = serial(pool, shape, s);
    set_serial(pool, shape, s, k.older());
}

// Sets the count of piece `d`: its reference count.
pub fn set_piece_count(pool: &mut [u8], shape: Shape, d: PieceNumber, n: u16)
    requires { Shaped pool.old shape × (d.0 < shape.pieces) }
    ensures { Becomes pool.old pool.new shape (λ T. set_piece T d.0 (with_count (piece T d.0) n)) }
{
    word::set16(pool, layout::piece_at(shape, d), n);
}

// Sets what follows piece `d`, 0 none and 1 + e piece e: its link.
pub fn set_piece_next(pool: &mut [u8], shape: Shape, d: PieceNumber, n: u16)
    requires { Shaped pool.old shape × (d.0 < shape.pieces) }
    ensures { Becomes pool.old pool.new shape (λ T. set_piece T d.0 (with_next (piece T d.0) n)) }
{
    word::set16(pool, layout::piece_at(shape, d) + 8, n);
}

// Sets the offset and the length of piece `d`: its data window.
pub fn set_piece_place(pool: &mut [u8], shape: Shape, d: PieceNumber, offset: u16, length: u16)
    requires { Shaped pool.old shape × (d.0 < shape.pieces) }
    ensures { Becomes pool.old pool.new shape (λ T. set_piece T d.0 (with_place (piece T d.0) offset length)) }
{
    let at = layout::piece_at(shape, d);
    word::set16(pool, at + 4, offset);
    word::set16(pool, at + 6, length);
}

// Sets the count and the buffer of piece `d`: its reference count and its cluster.
fn set_piece_base(pool: &mut [u8], shape: Shape, d: PieceNumber, count: u16, buffer: BufferNumber)
    requires { Shaped pool.old shape × (d.0 < shape.pieces) }
    ensures { Becomes pool.old pool.new shape (λ T. set_piece T d.0 (with_base (piece T d.0) count buffer.0)) }
{
    let at = layout::piece_at(shape, d);
    word::set16(pool, at, count);
    word::set16(pool, at + 2, buffer.0);
}

// Sets piece `d` whole: a descriptor store.
pub fn set_piece(pool: &mut [u8], shape: Shape, d: PieceNumber, e: Entry)
    requires { Shaped pool.old shape × (d.0 < shape.pieces) }
    ensures { Becomes pool.old pool.new shape (λ T. set_piece T d.0 (piece_of e)) }
{
    set_piece_base(pool, shape, d, e.count, e.buffer);
    set_piece_place(pool, shape, d, e.offset, e.len);
    set_piece_next(pool, shape, d, e.next);
}

// Sets the ten bytes of piece `d` to zero, which frees it: a cleared descriptor.
pub fn clear_piece(pool: &mut [u8], shape: Shape, d: PieceNumber)
    requires { Shaped pool.old shape × (d.0 < shape.pieces) }
    ensures { Becomes pool.old pool.new shape (λ T. set_piece T d.0 blank) }
{
    set_piece(pool, shape, d, Entry::default());
}

// Sets the count of buffer `b`: the reference count of a cluster.
pub fn set_buffer_count(pool: &mut [u8], shape: Shape, b: BufferNumber, n: u16)
    requires { Shaped pool.old shape × (b.0 < shape.buffers) }
    ensures { Becomes pool.old pool.new shape (λ T. set_count T b.0 n) }
{
    word::set16(pool, layout::count_at(shape, b), n);
}
