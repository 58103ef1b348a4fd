// 32-bit numbers in four bytes, the lowest first; a signed number in two's complement (document 01, 'The atlas file').
//
// A function whose name ends in _unchecked is not offered to callers, as in trig.

#![tactic(auto)]

ghost use Rattle.std.specs.Prelude.{◌≡◌, ◌+◌, ◌*◌, ◌≤◌, length, take, drop};
ghost use Rattle.little_endian.specs.Numbers.{u32_at, i32_at, unsigned, numbers_bytes, put};

// The N bytes from `at`; not offered to callers.
pub fn bytes_at_unchecked<const N: usize>(bytes: &[u8], at: usize) -> [u8; N]
    requires { at + N ≤ length bytes.now }
    ensures { result ≡ take N (drop at bytes.now) }
{
    bytes[at..at + N].try_into().unwrap()
}

// The number in the four bytes from `at`, the lowest first; not offered to callers.
pub fn u32_at_unchecked(bytes: &[u8], at: usize) -> u32
    requires { at + 4 ≤ length bytes.now }
    ensures { result ≡ u32_at bytes.now at }
{
    u32::from_le_bytes(bytes_at_unchecked(bytes, at))
}

// The signed number in the four bytes from `at`; not offered to callers.
// No plainer: one function for both would need a trait for two bodies of a line.
#[tactic(auto, using(crate::proofs::Bits::signed_is_cast), unfolding(crate::specs::Numbers::i32_at))]
pub fn i32_at_unchecked(bytes: &[u8], at: usize) -> i32
    requires { at + 4 ≤ length bytes.now }
    ensures { result ≡ i32_at bytes.now at }
{
    u32_at_unchecked(bytes, at).cast_signed()
}

// The two's complement of z.
#[tactic(auto, using(crate::proofs::Bits::unsigned_is_cast))]
pub fn to_unsigned(z: i32) -> u32
    ensures { result ≡ unsigned z }
{
    z.cast_unsigned()
}

// Writes bytes from `at` on; not offered to callers.
#[tactic(auto, using(crate::proofs::Puts::put_part))]
pub fn put_bytes_unchecked(out: &mut [u8], at: usize, bytes: &[u8])
    requires { at + length bytes.now ≤ length out.old }
    ensures { out.new ≡ put out.old at bytes.now }
{
    out[at..at + bytes.len()].copy_from_slice(bytes);
}

// Writes numbers one after the other behind a first byte; not offered to callers.
pub fn put_numbers_unchecked(out: &mut [u8], numbers: &[u32])
    requires { 1 + 4 * length numbers.now ≤ length out.old }
    ensures { out.new ≡ put out.old 1 (numbers_bytes numbers.now) }
{
    let mut at = 1;
    for &u in numbers {
        put_bytes_unchecked(out, at, &u.to_le_bytes());
        at += 4;
    }
}
