// What stays of a chain from a place on: held while what stands before it is given back, its first piece trimmed where it is own, copied where it is not.
#![tactic(auto, using(tables::proofs::Laws::totals, crate::proofs::Rest::cases, crate::proofs::Rest::shared_place))]

ghost use Rattle.std.specs.Prelude.{◌≡◌, ◌-◌, ◌≤◌, ◌<◌, length};
ghost use Rattle.rules.specs.Basics.{Is};
ghost use Rattle.rules.specs.Tables.{Tables, piece, holding};
ghost use Rattle.rules.specs.Bytes.{decode};
ghost use Rattle.rules.specs.Chain.{stretch};
ghost use Rattle.rules.specs.Sound.{link_ok};
ghost use Rattle.rules.specs.Room.{free_from};
ghost use Rattle.rules.specs.Release.{shared};
ghost use Rattle.rules.specs.Build.{taken, fresh, built, built_link};
ghost use Rattle.rules.specs.Drop.{shorter};
ghost use Rattle.tables.specs.Shape.{Shaped, Becomes, Backs};
ghost use Rattle.chain.specs.Opened.{Opened};
ghost use Rattle.build.specs.Share.{Sharable};
ghost use Rattle.build.specs.Clone.{Copyable};
ghost use Rattle.release.specs.Release.{turned_to, turned_storage};
ghost use Rattle.rest.specs.Rest.{rest_from, new_of, copy_of, Stays, Makable};

use chain::Spot;
use kinds::{PieceNumber, SlipNumber};
use layout::Shape;
use tables::Window;

// What stays from a place on: the window of a new first piece, where it needs one, and the link behind it (a descriptor to be made).
#[derive(Clone, Copy)]
pub struct Tail {
    pub window: Option<Window>,
    pub next: u16,
}

// Holds what stands behind piece `d`, to which there is one reference more; answers what `d` has from its byte `n` on,
// and the link behind it: a descriptor to be cloned.
fn hold_behind(pool: &mut [u8], shape: Shape, d: PieceNumber, n: u16) -> (Window, u16)
    requires { Shaped pool.old shape × Copyable (decode pool.old) d.0 n
        × Sharable (decode pool.old) (piece (decode pool.old) d.0).next }
    ensures { Becomes pool.old pool.new shape (λ T. shared T (piece T d.0).next)
        × (result ≡ (copy_of (decode pool.old) d.0 n, (piece (decode pool.old) d.0).next)) }
{
    let w = tables::piece_window(pool, shape, d);
    let next = tables::piece_next(pool, shape, d);
    build::share(pool, shape, next);
    let window = Window {
        buffer: w.buffer,
        offset: w.offset + n,
        len: w.len - n,
    };
    (window, next)
}

// The free piece `f` becomes what piece `d` has from its byte `n` on, before the same next,
// to which there is one reference more: a descriptor cloned and trimmed.
pub fn clone_rest(pool: &mut [u8], shape: Shape, d: PieceNumber, n: u16, f: PieceNumber)
    requires { Shaped pool.old shape × (f.0 < shape.pieces) × Copyable (decode pool.old) d.0 n
        × Sharable (decode pool.old) (piece (decode pool.old) d.0).next }
    ensures { Becomes pool.old pool.new shape
        (λ T. taken (shared T (piece T d.0).next) f.0 (fresh (stretch (shorter (piece T d.0) n)) (piece T d.0).next)) }
{
    let (window, next) = hold_behind(pool, shape, d, n);
    build::take_piece(pool, shape, f, window, next);
}

// How many new pieces what stays takes, 0 or 1: the descriptors wanted.
pub fn wanted(at: Spot) -> u16
    ensures { (T : Tables) → result ≡ length (rest_from T at.own at.link at.into).more }
{
    if at.link == 0 || at.into == 0 || at.own {
        0
    } else {
        1
    }
}

// Holds what stays from a place on: there is one reference more to it, and an own piece is trimmed in place.
// Answers what is still to be made of it: a tail pinned.
fn hold(pool: &mut [u8], shape: Shape, at: Spot) -> Tail
    requires opened { Opened pool.old shape × Is (link_ok (decode pool.old) at.link) }
    requires into_bound { (at.link ≡ 0 → ⊥) → at.into < (piece (decode pool.old) (at.link - 1)).len }
    ensures { Becomes pool.old pool.new shape (λ T. (rest_from T at.own at.link at.into).base)
        × Stays result (rest_from (decode pool.old) at.own at.link at.into) }
{
    let there = Tail {
        window: None,
        next: at.link,
    };
    if at.link == 0 {
        return there;
    }
    if at.into == 0 {
        build::share(pool, shape, at.link);
        return there;
    }
    let d = PieceNumber(at.link - 1);
    let n = at.into as u16;
    if at.own {
        build::share(pool, shape, at.link);
        own::shorten(pool, shape, d, n, 0);
        return there;
    }
    let (window, next) = hold_behind(pool, shape, d, n);
    Tail {
        window: Some(window),
        next,
    }
}

// Slip `s` takes what stays from a place on, where that needs no new piece, and what stands before it is released: a handle moved along its chain.
pub fn move_to(pool: &mut [u8], shape: Shape, storage: &mut [u8], s: SlipNumber, at: Spot)
    requires opened { Opened pool.old shape × Is (link_ok (decode pool.old) at.link) × (s.0 < shape.slips) }
    requires into_bound { ((at.link ≡ 0 → ⊥) → at.into < (piece (decode pool.old) (at.link - 1)).len)
        × Backs storage.old shape }
    ensures { Becomes pool.old pool.new shape
        (λ T. turned_to (rest_from T at.own at.link at.into).base s.0 (holding (rest_from T at.own at.link at.into).tail))
        × (storage.new ≡ turned_storage (rest_from (decode pool.old) at.own at.link at.into).base storage.old s.0
        (holding (rest_from (decode pool.old) at.own at.link at.into).tail)) }
{
    let tail = hold(pool, shape, at);
    release::turn(pool, shape, storage, s, tail.next + 1);
}

// Gives back what release frees of the chain of slip `s` before a place: what stays from there is held, the slip is emptied and its old chain released.
// Answers what stays: a front freed before its numbers are taken again.
pub fn give_back(pool: &mut [u8], shape: Shape, storage: &mut [u8], s: SlipNumber, at: Spot) -> Tail
    requires opened { Opened pool.old shape × Is (link_ok (decode pool.old) at.link) × (s.0 < shape.slips) }
    requires into_bound { ((at.link ≡ 0 → ⊥) → at.into < (piece (decode pool.old) (at.link - 1)).len)
        × Backs storage.old shape }
    ensures becomes { Becomes pool.old pool.new shape
        (λ T. turned_to (rest_from T at.own at.link at.into).base s.0 (holding 0))
        × Stays result (rest_from (decode pool.old) at.own at.link at.into) }
    ensures storage_after { storage.new
        ≡ turned_storage (rest_from (decode pool.old) at.own at.link at.into).base storage.old s.0 (holding 0) }
{
    let tail = hold(pool, shape, at);
    release::turn(pool, shape, storage, s, 1);
    tail
}

// Makes the new piece of what stays, where it has one, of the lowest free one from `from` on; answers the link to what stays: a descriptor taken.
pub fn make(pool: &mut [u8], shape: Shape, tail: Tail, from: PieceNumber) -> u16
    requires { Shaped pool.old shape × (shape.pieces < 65535) × Makable (decode pool.old) tail from.0 }
    ensures { Becomes pool.old pool.new shape (λ T. built T (free_from T from.0) (new_of tail) tail.next)
        × (result ≡ built_link (free_from (decode pool.old) from.0) (new_of tail) tail.next) }
{
    let Some(window) = tail.window else {
        return tail.next;
    };
    let f = room::next_free(pool, shape, from);
    build::take_piece(pool, shape, f, window, tail.next);
    f.0 + 1
}
