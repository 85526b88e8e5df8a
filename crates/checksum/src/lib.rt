// CRC-32 as zip and PNG define it. Bytes may be handed in one part after another.
#![tactic(auto)]

pub mod table;

ghost use Rattle.std.specs.Prelude.{◌≡◌};
ghost use Rattle.checksum.specs.Checksum.{table, crc, crc32};

// A byte as a number of 32 bits.
fn wide(byte: u8) -> u32
    ensures { result ≡ byte }
{
    byte as u32
}

// The register after these bytes, by the table.
fn update(entries: &[u32; 256], start: u32, bytes: &[u8]) -> u32
    requires { entries.now ≡ table }
    ensures { result ≡ crc start bytes.now }
{
    let mut register = start;
    for byte in bytes {
        let place = (register ^ wide(*byte)) % 256;
        register = entries[place as usize] ^ (register / 256);
    }
    register
}

// The checksum of these bytes. `before` is the checksum of the bytes that come before them: 0 if there are none.
pub fn crc32(before: u32, bytes: &[u8]) -> u32
    ensures { result ≡ crc32 before bytes.now }
{
    let entries = table::all();
    update(&entries, before ^ 0xffff_ffff, bytes) ^ 0xffff_ffff
}
