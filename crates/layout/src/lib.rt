// How a pool lies in bytes: its header, where its entries stand, its lengths, and the fresh pool.
#![tactic(auto)]

ghost use Rattle.std.specs.Prelude.{◌≡◌, ◌&&◌, [], ◌∷◌, ◌++◌, ◌≤◌, length, take, drop};
ghost use Rattle.word.specs.Word.{bytes16};
ghost use Rattle.rules.specs.Layout.{mark, version, buffers_at, header_length, slip_at, piece_at, count_at, pool_length};
ghost use Rattle.rules.specs.Tables.{fresh_tables};
ghost use Rattle.rules.specs.Bytes.{encode, buffers_in, pieces_in, slips_in};
ghost use Rattle.rules.specs.Sound.{marked, counts_ok, lengths_ok};

use kinds::{BufferNumber, Number, PieceNumber, SlipNumber};

// The version that a pool's header states: a format version.
const VERSION: u16 = 2;

// Where the header's numbers stand: field offsets.
const VERSION_AT: usize = 3;

const BUFFERS_AT: usize = 5;

const PIECES_AT: usize = 7;

const SLIPS_AT: usize = 9;

// The bytes of the header, of a slip's entry (its state, then its serial), of a piece's and of a buffer's count: record sizes.
pub const HEADER: usize = 11;

const SLIP_WIDTH: usize = 4;

const PIECE_WIDTH: usize = 10;

const COUNT_WIDTH: usize = 2;

// The counts of a pool, its table sizes: buffers, pieces and slips.
#[derive(Clone, Copy)]
pub struct Shape {
    pub buffers: u16,
    pub pieces: u16,
    pub slips: u16,
}

// The counts that the header of `pool` states: a header load.
pub fn shape_of(pool: &[u8]) -> Shape
    requires { header_length ≤ length pool.now }
    ensures { (result.buffers ≡ buffers_in pool.now) × (result.pieces ≡ pieces_in pool.now) × (result.slips ≡ slips_in pool.now) }
{
    Shape {
        buffers: word::get16(pool, BUFFERS_AT),
        pieces: word::get16(pool, PIECES_AT),
        slips: word::get16(pool, SLIPS_AT),
    }
}

// The byte at which the entry of slip `s` starts: a table offset.
pub fn slip_at(s: SlipNumber) -> usize
    ensures { result ≡ slip_at s.0 }
{
    HEADER + SLIP_WIDTH * s.0 as usize
}

// The byte at which the entry of piece `d` starts: a table offset.
pub fn piece_at(shape: Shape, d: PieceNumber) -> usize
    ensures { result ≡ piece_at shape.slips d.0 }
{
    slip_at(SlipNumber(shape.slips)) + PIECE_WIDTH * d.0 as usize
}

// The byte at which the count of buffer `b` stands: a table offset.
pub fn count_at(shape: Shape, b: BufferNumber) -> usize
    ensures { result ≡ count_at shape.pieces shape.slips b.0 }
{
    piece_at(shape, PieceNumber(shape.pieces)) + COUNT_WIDTH * b.0 as usize
}

// Whether the mark and the version are a pool's.
pub fn marked(pool: &[u8]) -> bool
    requires { header_length ≤ length pool.now }
    ensures { result ≡ marked pool.now }
{
    pool[0] == b'S'
        && pool[1] == b'L'
        && pool[2] == b'P'
        && word::get16(pool, VERSION_AT) == VERSION
}

// The exact length of a pool of this shape.
pub fn pool_length(shape: Shape) -> usize
    ensures { result ≡ pool_length shape.buffers shape.pieces shape.slips }
{
    count_at(shape, BufferNumber(shape.buffers))
}

// Whether the counts are within their limits and both lengths are the ones they ask.
pub fn sized(shape: Shape, pool: usize, storage: usize) -> bool
    ensures { result
        ≡ (counts_ok shape.buffers shape.pieces shape.slips && lengths_ok shape.buffers shape.pieces shape.slips pool storage) }
{
    BufferNumber::counted(shape.buffers)
        && PieceNumber::counted(shape.pieces)
        && SlipNumber::counted(shape.slips)
        && pool == pool_length(shape)
        && storage == BufferNumber(shape.buffers).start()
}

// Writes the mark and the version: a magic number and a format version.
fn write_mark(pool: &mut [u8])
    requires { header_length ≤ length pool.old }
    ensures { pool.new ≡ mark ++ (bytes16 (version ∷ []) ++ drop buffers_at pool.old) }
{
    pool[0] = b'S';
    pool[1] = b'L';
    pool[2] = b'P';
    word::set16(pool, VERSION_AT, VERSION);
}

// Writes the counts behind the version: a header store.
fn write_counts(pool: &mut [u8], shape: Shape)
    requires { header_length ≤ length pool.old }
    ensures { pool.new
        ≡ take buffers_at pool.old ++ (bytes16 (shape.buffers ∷ shape.pieces ∷ shape.slips ∷ []) ++ drop header_length pool.old) }
{
    word::set16(pool, BUFFERS_AT, shape.buffers);
    word::set16(pool, PIECES_AT, shape.pieces);
    word::set16(pool, SLIPS_AT, shape.slips);
}

// Writes the fresh pool of this shape, every entry zero: the initial image.
pub fn fresh(pool: &mut [u8], shape: Shape)
    requires { length pool.old ≡ pool_length shape.buffers shape.pieces shape.slips }
    ensures { pool.new ≡ encode (fresh_tables shape.buffers shape.pieces shape.slips) }
{
    write_mark(pool);
    write_counts(pool, shape);
    storage::zero(&mut pool[HEADER..]);
}
