// One sample from its bytes.
ghost use Rattle.std.specs.Prelude.{◌≡◌, ◌+◌, ◌*◌, ◌<◌, ◌≤◌, length, from_bits};
ghost use Rattle.std.specs.Float.{binary32};
ghost use Rattle.pcm.specs.Pcm.{width, two_bytes_at, three_bytes_at, four_bytes_at, signed, clipped, halves, number_at};
ghost use Rattle.pcm.specs.Private.{numbered, Names};

// A format of samples. In a call it is the number of its bits, and 33 for whole numbers of 32 bits.
#[derive(Clone, Copy)]
pub(crate) enum Format {
    Int16,
    Int24,
    Float32,
    Int32,
}

// A number that names no format.
#[derive(Clone, Copy)]
pub(crate) struct UnknownFormat;

impl TryFrom<u32> for Format {
    type Error = UnknownFormat;

    ghost try_from_gives = { Names };

    fn try_from(number: u32) -> Result<Self, UnknownFormat> {
        match number {
            16 => Ok(Format::Int16),
            24 => Ok(Format::Int24),
            32 => Ok(Format::Float32),
            33 => Ok(Format::Int32),
            _ => Err(UnknownFormat),
        }
    }
}

impl Format {
    // The bytes of a sample.
    pub(crate) fn width(self) -> usize
        ensures { (result ≡ width (numbered self)) × (0 < result) × (result ≤ 4) }
    {
        match self {
            Format::Int16 => 2,
            Format::Int24 => 3,
            Format::Float32 | Format::Int32 => 4,
        }
    }
}

// The bytes of a sample in this format, or 0 if there is no such format.
// Stays: the format is a number, since a call from C gives one: the C interface.
pub fn width_of(format: u32) -> usize
    ensures { result ≡ width format }
{
    match Format::try_from(format) {
        Ok(known) => known.width(),
        Err(_) => 0,
    }
}

// Two bytes from place a on, the low byte first.
fn two(bytes: &[u8], a: usize) -> u32
    requires { a + 2 ≤ length bytes.now }
    ensures { (result ≡ two_bytes_at bytes.now a) × (result < 65536) }
{
    u16::from_le_bytes([bytes[a], bytes[a + 1]]) as u32
}

// Three bytes from place a on, the low byte first.
fn three(bytes: &[u8], a: usize) -> u32
    requires { a + 3 ≤ length bytes.now }
    ensures { (result ≡ three_bytes_at bytes.now a) × (result < 16777216) }
{
    u32::from_le_bytes([bytes[a], bytes[a + 1], bytes[a + 2], 0])
}

// Four bytes from place a on, the low byte first.
fn four(bytes: &[u8], a: usize) -> u32
    requires { a + 4 ≤ length bytes.now }
    ensures { result ≡ four_bytes_at bytes.now a }
{
    u32::from_le_bytes([bytes[a], bytes[a + 1], bytes[a + 2], bytes[a + 3]])
}

// Two's complement: n if it is below `half`, and otherwise n minus twice `half`.
#[tactic(auto, using(crate::proofs::Patterns::casts), unfolding(crate::specs::Pcm::signed))]
fn signed(half: u32, n: u32) -> f32
    requires { (n < 2 * half) × (half ≤ 8388608) }
    ensures { result ≡ signed half n }
{
    if n < half {
        return n as f32;
    }
    -((2 * half - n) as f32)
}

// The float with these bits. All bits of NaNs give the one NaN.
fn float_of(bits: u32) -> f32
    ensures { result ≡ from_bits binary32 bits }
{
    if bits % 0x8000_0000 > 0x7f80_0000 {
        return 0.0 / 0.0;
    }
    f32::from_bits(bits)
}

// The largest finite f32.
const LARGEST: f32 = 340282350000000000000000000000000000000.0;

// The number, moved to the nearer end if it is outside `low` to `high`. A NaN and an infinity stay.
fn clipped(y: f32, low: f32, high: f32) -> f32
    ensures { result ≡ clipped low high y }
{
    if !(-LARGEST <= y) {
        return y;
    }
    if !(y <= LARGEST) {
        return y;
    }
    numbers::clamp(y, low, high)
}

// A whole number of 32 bits divided by 65,536: the upper two bytes are the whole part, and the lower two the fraction.
#[tactic(auto, using(crate::proofs::Patterns::casts), unfolding(crate::specs::Pcm::halves))]
fn halves(bytes: &[u8], a: usize) -> f32
    requires { a + 4 ≤ length bytes.now }
    ensures { result ≡ halves bytes.now a }
{
    let whole = signed(32768, two(bytes, a + 2));
    let fraction = two(bytes, a) as f32 / 65536.0;
    whole + fraction
}

// The sample whose bytes begin at place a.
pub(crate) fn number_at(format: Format, bytes: &[u8], a: usize) -> f32
    requires { a + width (numbered format) ≤ length bytes.now }
    ensures { result ≡ number_at (numbered format) bytes.now a }
{
    match format {
        Format::Int16 => signed(32768, two(bytes, a)),
        Format::Int24 => clipped(signed(8388608, three(bytes, a)) / 256.0, -32768.0, 32767.0),
        Format::Float32 => 32768.0 * clipped(float_of(four(bytes, a)), -1.0, 0.999969482421875),
        Format::Int32 => clipped(halves(bytes, a), -32768.0, 32767.0),
    }
}
