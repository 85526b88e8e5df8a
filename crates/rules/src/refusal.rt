// What a call is refused for. docs/REFUSALS.md says exactly when; it has the same names and numbers.
ghost use Rattle.std.specs.Prelude.{◌≡◌};
ghost use Rattle.rules.specs.Refusal.{refusal_number, told};

// Each refusal has its number in that page, which is what a host is told.
#[derive(Clone, Copy, Debug, PartialEq, Eq)]
pub enum Refusal {
    // A call of a bench.
    NoSuchSide = 1,
    OutOfRange = 2,
    Closed = 3,
    NotDue = 4,
    WrongLength = 5,
    LagTooLarge = 6,
    OtherCounts = 8,
    BadSample = 9,
    // A model file, and the writer of one. (7 is a call that is given one, with these numbers beside it.)
    ModelNoHeader = 11,
    ModelInputs = 12,
    ModelNeurons = 13,
    ModelActivation = 14,
    ModelNoNeurons = 15,
    ModelArray = 16,
    ModelBytesLeft = 17,
    ModelEnds = 18,
    ModelVadGru = 19,
    ModelNoiseGru = 20,
    ModelDenoiseGru = 21,
    ModelDenoiseOutput = 22,
    ModelNoRoom = 24,
    // A side sheet, its writer, and mending one.
    SheetShort = 31,
    SheetDistance = 32,
    SheetSide = 33,
    SheetRecord = 34,
    SheetSum = 35,
    SheetNoRoom = 36,
    MendPlace = 37,
    MendNothing = 38,
    // A WAV file's head. (40 asks for more bytes.)
    WavNoRiff = 41,
    WavEnds = 42,
    WavNoFormat = 43,
    WavShortFormat = 44,
    WavFormat = 45,
    WavChannels = 46,
    WavBlock = 47,
    // A seal.
    SealNone = 51,
    SealChecksum = 52,
    SealSide = 53,
    // A sealed recording.
    RecordingHead = 61,
    RecordingAudio = 62,
    RecordingSeal = 63,
    RecordingRecords = 64,
    RecordingTrailer = 65,
    RecordingLonger = 66,
    // A recording while it is being made.
    RecorderTooLong = 67,
    RecorderRecords = 68,
    RecorderSize = 69,
    RecorderFrames = 70,
    RecorderNoCut = 71,
}

impl Refusal {
    pub fn number(self) -> u32
        ensures { result ≡ refusal_number self }
    {
        self as u32
    }
}

// What a host is told of an outcome: 0 if it is done, and else the number of its refusal.
pub fn told<T: Drop>(outcome: Result<T, Refusal>) -> u32
    ensures { result ≡ told outcome }
{
    match outcome {
        Ok(_) => 0,
        Err(refusal) => refusal.number(),
    }
}
