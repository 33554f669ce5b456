// 16-bit numbers in bytes, low byte first (little-endian).
#![tactic(auto)]

ghost use Rattle.std.specs.Prelude.{◌≡◌, ◌+◌, ◌≤◌, length};
ghost use Rattle.word.specs.Word.{get16, set16};

// The number that stands at byte `at` of `p`: a 16-bit little-endian load.
#[tactic(auto, unfolding(crate::specs::Word::get16))]
pub fn get16(p: &[u8], at: usize) -> u16
    requires { at + 2 ≤ length p.now }
    ensures { result ≡ get16 p.now at }
{
    u16::from_le_bytes([p[at], p[at + 1]])
}

// Writes the number `v` at byte `at` of `p`: a 16-bit little-endian store.
#[tactic(auto, unfolding(crate::specs::Word::set16))]
pub fn set16(p: &mut [u8], at: usize, v: u16)
    requires { at + 2 ≤ length p.old }
    ensures { p.new ≡ set16 p.old at v }
{
    [p[at], p[at + 1]] = v.to_le_bytes();
}
