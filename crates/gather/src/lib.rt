// The reader of a wire list: the bytes that its records name, copied out of storage, with no pool.
#![tactic(auto)]

ghost use Rattle.std.specs.Prelude.{◌≡◌, ◌||◌, ◌++◌, ◌+◌, ◌≤◌, length, take, drop, eqb, ltb};
ghost use Rattle.rules.specs.Basics.{Is};
ghost use Rattle.rules.specs.Read.{copied};
ghost use Rattle.rules.specs.Gather.{lengths_of, any_amiss, listed, gather};
ghost use Rattle.gather.specs.Sum.{summed, gathered_of};

use kinds::{BufferNumber, Refusal};

// The bytes of a buffer, to count and to index by.
const SIZE: usize = BufferNumber::SIZE as usize;

// What gather answers to C: a status code and the count of bytes, which may pass 32 bits.
#[repr(C)]
#[derive(Clone, Copy)]
pub struct Gathered {
    pub code: u16,
    pub number: u64,
}

// Whether a record has no length or leaves a storage of `size` bytes, as whole numbers: a bounds test.
fn amiss(position: u32, length: u32, size: usize) -> bool
    ensures { result ≡ (eqb length 0 || ltb size (position + length)) }
{
    length == 0 || size < position as usize + length as usize
}

// The bytes that the records of `list` ask of `size` bytes of storage, where there is room for `room`: all lengths are judged before any record.
fn asked(list: &[u32], size: usize, room: usize) -> Result<usize, Refusal>
    ensures { result ≡ summed list.now size room }
{
    let mut left = room;
    let mut bad = false;
    for record in list.chunks_exact(2) {
        let (position, length) = (record[0], record[1]);
        left = left.checked_sub(length as usize).ok_or(Refusal::Narrow)?;
        bad |= amiss(position, length, size);
    }
    if bad {
        return Err(Refusal::WireList);
    }
    Ok(room - left)
}

// Copies the `n` bytes of `storage` from `from` on over those of `output` from `at` on, at most a buffer's by way of
// a local array: a memcpy of any length.
fn copy_run(output: &mut [u8], at: usize, storage: &[u8], from: usize, n: usize)
    requires { (at + n ≤ length output.old) × (from + n ≤ length storage.now) }
    ensures { output.new
        ≡ take at output.old ++ (take n (drop from storage.now) ++ drop (at + n) output.old) }
{
    if n <= SIZE {
        storage::copy_part(output, at, storage, from, n);
    } else {
        output[at..at + n].copy_from_slice(&storage[from..from + n]);
    }
}

// Copies the bytes of the records of `list`, in order, to the front of `output`: a gather.
fn copy_all(storage: &[u8], list: &[u32], output: &mut [u8])
    requires { (lengths_of list.now ≤ length output.old) × (Is (any_amiss (length storage.now) list.now) → ⊥) }
    ensures { output.new ≡ copied (listed storage.now list.now) output.old }
{
    let mut at = 0;
    for record in list.chunks_exact(2) {
        let (from, n) = (record[0] as usize, record[1] as usize);
        copy_run(output, at, storage, from, n);
        at += n;
    }
}

// Copies the bytes of the records of `list` to the front of `output`, and answers how many.
pub fn gather(storage: &[u8], list: &[u32], output: &mut [u8]) -> Gathered
    ensures { gathered_of result output.new ≡ gather storage.now list.now output.old }
{
    match asked(list, storage.len(), output.len()) {
        Ok(n) => {
            copy_all(storage, list, output);
            Gathered {
                code: 0,
                number: n as u64,
            }
        }
        Err(r) => Gathered {
            code: r.into(),
            number: 0,
        },
    }
}
