ghost use Rattle.std.specs.Prelude.{◌≡◌, length, IfOk};
ghost use Rattle.input.specs.Bytes.{number, numbers_in};

use std::alloc::{AllocError, Global};

#[tactic(auto, using(crate::proofs::FourBytes::numbers_are))]
pub fn numbers(heap: Global, bytes: &[u8]) -> Result<Vec<u64>, AllocError>
    ensures { IfOk result (λ v. v.items ≡ numbers_in bytes.now) }
{
    let (fours, _) = bytes.as_chunks::<4>();
    fours.iter().map(read_number).collect(heap)
}

fn read_number(four: &[u8; 4]) -> u64
    ensures { result ≡ number four.now }
{
    u64::from(u32::from_le_bytes(*four))
}
