// Left and right: a type of its own, so that no other number can be passed for a side. A bench, 0 to 15, is another
// type.
#![tactic(auto)]

ghost use Rattle.std.specs.Prelude.{◌≡◌, ◌≤◌, ◌<◌, ◌^◌};
ghost use Rattle.sides.specs.Sides.{number_of, letters_of, of_number, of_letters};

// "LEFT" and "RGHT", little end first.
const LEFT: u32 = 0x5446_454c;

const RGHT: u32 = 0x5448_4752;

// A side of the workshop.
#[derive(Clone, Copy)]
pub enum Side {
    Left,
    Right,
}

impl Side {
    // A side's number in a file: 0 left, 1 right.
    pub fn number(self) -> u8
        ensures { (result ≡ number_of self) × (result ≤ 1) }
    {
        match self {
            Side::Left => 0,
            Side::Right => 1,
        }
    }

    // A side's four letters, as the number that they are with the little end first.
    pub fn letters(self) -> u32
        ensures { result ≡ letters_of self }
    {
        match self {
            Side::Left => LEFT,
            Side::Right => RGHT,
        }
    }

    // The side with this number, if one has it.
    pub fn of_number(number: u32) -> Option<Side>
        ensures { result ≡ of_number number }
    {
        match number {
            0 => Some(Side::Left),
            1 => Some(Side::Right),
            _ => None,
        }
    }

    // The side with these four letters, if one has them.
    pub fn of_letters(letters: u32) -> Option<Side>
        ensures { result ≡ of_letters letters }
    {
        match letters {
            LEFT => Some(Side::Left),
            RGHT => Some(Side::Right),
            _ => None,
        }
    }
}
