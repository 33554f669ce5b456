// The bytes of storage: a buffer is filled, and bytes are copied.
#![tactic(auto)]

ghost use Rattle.std.specs.Prelude.{◌≡◌, [], ◌++◌, ◌+◌, ◌-◌, ◌*◌, ◌≤◌, length, take, drop, replicate};
ghost use Rattle.kinds.specs.Limits.{buffer_size};
ghost use Rattle.rules.specs.Storage.{filled_at};

use kinds::BufferNumber;

// The bytes of a buffer, to count and to index by.
const SIZE: usize = BufferNumber::SIZE as usize;

// Sets every byte of `s` to zero: a memset.
pub fn zero(s: &mut [u8])
    ensures { s.new ≡ replicate (length s.old) 0 }
{
    for x in s.iter_mut() {
        *x = 0;
    }
}

// Copies `src` over `dst`, of the same length, by a loop, which the compiler unrolls where it knows the length: a memcpy.
pub fn copy(dst: &mut [u8], src: &[u8])
    requires { length dst.old ≡ length src.now }
    ensures { dst.new ≡ src.now }
{
    for (i, x) in src.iter().enumerate() {
        dst[i] = *x;
    }
}

// Sets `part` to `input` and then zeros: a padded copy.
pub fn fill(part: &mut [u8], input: &[u8])
    requires { length input.now ≤ length part.old }
    ensures { part.new ≡ input.now ++ replicate (length part.old - length input.now) 0 }
{
    let n = input.len();
    if n == part.len() {
        copy(part, input);
        return;
    }
    part[..n].copy_from_slice(input);
    zero(&mut part[n..]);
}

// Fills buffer `b` with `input` and then zeros: only its stretch of storage is lent (a cluster write).
pub fn fill_buffer(storage: &mut [u8], b: BufferNumber, input: &[u8])
    requires { (buffer_size * b.0 + buffer_size ≤ length storage.old) × (length input.now ≤ buffer_size) }
    ensures { storage.new ≡ filled_at storage.old (buffer_size * b.0) buffer_size input.now }
{
    let start = b.start();
    fill(&mut storage[start..start + SIZE], input);
}

// Sets every byte of buffer `b` to zero: only its stretch of storage is lent (a cluster cleared).
pub fn clean_buffer(storage: &mut [u8], b: BufferNumber)
    requires { buffer_size * b.0 + buffer_size ≤ length storage.old }
    ensures { storage.new ≡ filled_at storage.old (buffer_size * b.0) buffer_size [] }
{
    let start = b.start();
    zero(&mut storage[start..start + SIZE]);
}

// Copies the `n` bytes of `src` from `from` on over those of `dst` from `at` on, at most a
// buffer's, by way of a local array, of which the compiler makes one memmove.
pub fn copy_part(dst: &mut [u8], at: usize, src: &[u8], from: usize, n: usize)
    requires { (at + n ≤ length dst.old) × (from + n ≤ length src.now) × (n ≤ buffer_size) }
    ensures { dst.new ≡ take at dst.old ++ (take n (drop from src.now) ++ drop (at + n) dst.old) }
{
    let mut block = [0u8; SIZE];
    block[..n].copy_from_slice(&src[from..from + n]);
    dst[at..at + n].copy_from_slice(&block[..n]);
}

// Writes `input` over the bytes of `part` from `at` on: a memcpy into a stretch that is lent.
fn write_at(part: &mut [u8], at: usize, input: &[u8])
    requires { at + length input.now ≤ length part.old }
    ensures { part.new ≡ take at part.old ++ (input.now ++ drop (at + length input.now) part.old) }
{
    part[at..at + input.len()].copy_from_slice(input);
}

// Sets the bytes of buffer `b` from `at` on to the `n` bytes of storage from `from` on, by way of a local array,
// as copy_part: only the buffer's stretch is lent to be written (a cluster write from another).
pub fn fill_part(storage: &mut [u8], b: BufferNumber, at: usize, from: usize, n: usize)
    requires { (buffer_size * b.0 + buffer_size ≤ length storage.old) × (at + n ≤ buffer_size) × (from + n ≤ length storage.old) }
    ensures { storage.new
        ≡ take (buffer_size * b.0 + at) storage.old
        ++ (take n (drop from storage.old) ++ drop (buffer_size * b.0 + at + n) storage.old) }
{
    let start = b.start();
    let mut block = [0u8; SIZE];
    copy_part(&mut block, 0, storage, from, n);
    write_at(&mut storage[start..start + SIZE], at, &block[..n]);
}

// Sets the bytes of buffer `b` from `n` on to zero: only its stretch is lent (the rest of a cluster cleared).
pub fn fill_rest(storage: &mut [u8], b: BufferNumber, n: usize)
    requires { (buffer_size * b.0 + buffer_size ≤ length storage.old) × (n ≤ buffer_size) }
    ensures { storage.new
        ≡ take (buffer_size * b.0 + n) storage.old
        ++ (replicate (buffer_size - n) 0 ++ drop (buffer_size * b.0 + buffer_size) storage.old) }
{
    let start = b.start();
    zero(&mut storage[start + n..start + SIZE]);
}
