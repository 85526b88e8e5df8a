// Numbers as bytes, least significant byte first.
ghost use Rattle.std.specs.Prelude.{◌≡◌, ◌+◌, ◌≤◌, ◌<◌, ◌^◌, length, drop};
ghost use Rattle.sheet.specs.End.{from_four};
ghost use Rattle.wav.specs.Chunks.{from_two};

// The number that four bytes at a place are.
#[tactic(auto, using(sheet::proofs::Fields::four_at_lem))]
pub(crate) fn four_at(bytes: &[u8], at: usize) -> u64
    requires { at + 4 ≤ length bytes.now }
    ensures { (result ≡ from_four (drop at bytes.now)) × (result < 2 ^ 32) }
{
    sheet::joined(bytes[at], bytes[at + 1], bytes[at + 2], bytes[at + 3]) as u64
}

// The number that two bytes at a place are.
#[tactic(auto, using(crate::proofs::Fields::two_at))]
pub(crate) fn two_at(bytes: &[u8], at: usize) -> u64
    requires { at + 2 ≤ length bytes.now }
    ensures { (result ≡ from_two (drop at bytes.now)) × (result < 2 ^ 16) }
{
    u16::from_le_bytes([bytes[at], bytes[at + 1]]) as u64
}
