// Whether a lent pool is sound: an integrity check of its tables, linear in their size.
#![tactic(auto)]

ghost use Rattle.std.specs.Prelude.{◌≡◌, true, ◌<◌, ◌≤◌, length, is_ok};
ghost use Rattle.kinds.specs.Limits.{most_pieces, most_buffers};
ghost use Rattle.rules.specs.Layout.{header_length};
ghost use Rattle.rules.specs.Tables.{piece_total};
ghost use Rattle.rules.specs.Bytes.{decode};
ghost use Rattle.rules.specs.Sound.{acyclic, headed};
ghost use Rattle.counts.specs.Ranges.{pieces_in_range};
ghost use Rattle.counts.specs.Counters.{Limited, Cleared};
ghost use Rattle.audit.specs.Follows.{followed, follows_of, Tested};
ghost use Rattle.audit.specs.Colours.{few_pieces, few_buffers, colours_in, Plain, Scanned, Walked};
ghost use Rattle.audit.specs.Verdict.{Fitting, Verdict};

use kinds::{BufferNumber, Number, PieceNumber, Refusal};
use layout::Shape;

// One counter for each piece that a pool may have.
const PIECES: usize = PieceNumber::MOST as usize;

// One counter for each buffer that a pool may have.
const BUFFERS: usize = BufferNumber::MOST as usize;

// The counters for the pieces of a small pool, whose audit then clears an eighth.
const FEW_PIECES: usize = PIECES / 8;

// The counters for its buffers.
const FEW_BUFFERS: usize = BUFFERS / 8;

// What an audit comes to: the pool's shape or the refusal of a torn one, and how often next was followed.
#[derive(Clone, Copy)]
pub struct Audited {
    pub shape: Result<Shape, Refusal>,
    pub follows: u16,
}

// Follows next from piece `d`, giving each piece met the walk's colour, up to a piece that has one: its own is a cycle. Answers the follows so
// far, an error on a cycle. A colour is above every count, so the counters of the pieces serve for the colours as they stand.
fn walk(
    pool: &[u8],
    shape: Shape,
    colours: &mut [u16],
    d: PieceNumber,
    follows: u16,
) -> Result<u16, u16>
    requires { Limited pool.now shape × Scanned (decode pool.now) (colours_in colours.old) follows d.0 × (d.0 < shape.pieces) }
    ensures { Walked (decode pool.now) (colours_in colours.new) d.0 result }
{
    let colour = kinds::MOST_COUNT + d.0 + 1;
    let mut link = d.0 as usize + 1;
    let mut n = follows;
    while let Some(i) = link.checked_sub(1) {
        let seen = colours[i];
        if seen > kinds::MOST_COUNT {
            return if seen == colour { Err(n) } else { Ok(n) };
        }
        colours[i] = colour;
        // Next is followed here alone, and counted.
        link = tables::piece_next(pool, shape, PieceNumber(i as u16)) as usize;
        n += 1;
    }
    Ok(n)
}

// Whether following next ends from every piece, an error where it does not, with the follows that this took: one for each piece met, at most P.
fn ends(pool: &[u8], shape: Shape, colours: &mut [u16]) -> Result<u16, u16>
    requires { Limited pool.now shape × (pieces_in_range (decode pool.now) ≡ true) × Plain shape.pieces colours.old }
    ensures exact { is_ok result ≡ acyclic (decode pool.now) }
    ensures follows { followed result ≡ follows_of (decode pool.now) }
    ensures bounded { followed result ≤ piece_total (decode pool.now) }
{
    let mut n = 0;
    for d in 0..shape.pieces {
        n = walk(pool, shape, colours, PieceNumber(d), n)?;
    }
    Ok(n)
}

// Whether the tables are sound, with how often next was followed: lent counters for the pieces, then their colours, and for the buffers.
fn tables_ok_in(pool: &[u8], shape: Shape, refs: &mut [u16], lies: &mut [u16]) -> Result<u16, u16>
    requires { Limited pool.now shape × Cleared shape.pieces refs.old × Cleared shape.buffers lies.old }
    ensures { Tested (decode pool.now) result }
{
    if !counts::references_ok(pool, shape, refs, lies) {
        return Err(0);
    }
    ends(pool, shape, refs)
}

// The same of a pool of at most P pieces and B buffers, with as many counters.
fn tables_ok_with<const P: usize, const B: usize>(pool: &[u8], shape: Shape) -> Result<u16, u16>
    requires limited { Limited pool.now shape }
    requires room { (shape.pieces ≤ P) × (shape.buffers ≤ B) }
    requires most { (P ≤ most_pieces) × (B ≤ most_buffers) }
    ensures { Tested (decode pool.now) result }
{
    let mut refs = [0; P];
    let mut lies = [0; B];
    tables_ok_in(pool, shape, &mut refs, &mut lies)
}

// The same of a small pool, with few counters.
fn small_ok(pool: &[u8], shape: Shape) -> Result<u16, u16>
    requires { Limited pool.now shape × (shape.pieces ≤ few_pieces) × (shape.buffers ≤ few_buffers) }
    ensures { Tested (decode pool.now) result }
{
    tables_ok_with::<FEW_PIECES, FEW_BUFFERS>(pool, shape)
}

// The same of any pool, with few counters for a small one.
fn tables_ok(pool: &[u8], shape: Shape) -> Result<u16, u16>
    requires { Limited pool.now shape }
    ensures { Tested (decode pool.now) result }
{
    if shape.pieces as usize > FEW_PIECES || shape.buffers as usize > FEW_BUFFERS {
        tables_ok_with::<PIECES, BUFFERS>(pool, shape)
    } else {
        small_ok(pool, shape)
    }
}

// The shape that the header states, where mark, version, counts and both lengths fit.
fn fitting(pool: &[u8], storage: usize) -> Option<Shape>
    ensures { Fitting pool.now storage result }
{
    if pool.len() < layout::HEADER {
        return None;
    }
    let shape = layout::shape_of(pool);
    let fits = layout::marked(pool) && layout::sized(shape, pool.len(), storage);
    fits.then_some(shape)
}

// Whether the lent pool is sound beside `storage` bytes of storage, with how often next was followed: the integrity check before every call.
pub fn audit(pool: &[u8], storage: usize) -> Audited
    ensures { Verdict pool.now storage result }
{
    let Some(shape) = fitting(pool, storage) else {
        return Audited {
            shape: Err(Refusal::Torn),
            follows: 0,
        };
    };
    let (shape, follows) = match tables_ok(pool, shape) {
        Ok(n) => (Ok(shape), n),
        Err(n) => (Err(Refusal::Torn), n),
    };
    Audited { shape, follows }
}
