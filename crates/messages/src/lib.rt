// The built-in messages: PGN 129025, 129026, 129029 and 130900, with their tables in the words that
// `tables` reads.
//
// Promise: `message_of` answers which message a PGN is, and this list is the only one: whoever reads or
// writes by a PGN goes by it. `Message::table` lends the table of each, the words that specs/Tables.antt
// lists, which are those of the constant of its name; proofs/Accepted.antt computes that the table check
// accepts them. None of the four has a length or a minimum.
#![tactic(auto)]

ghost use Rattle.std.specs.Prelude.{◌≡◌};
ghost use Rattle.messages.specs.Messages.{words_of};

mod lookup;

pub use crate::lookup::message_of;
use tables::CheckedTable;

// The built-in messages, by their PGNs.
#[derive(Clone, Copy)]
pub enum Message {
    M129025,
    M129026,
    M129029,
    M130900,
}

// The kinds by their codes.
const NUMBER: u64 = 0;

const LOOKUP: u64 = 2;

const DATE: u64 = 6;

const TIME: u64 = 7;

const DURATION: u64 = 8;

const RESERVED: u64 = 15;

// A width of one bit.
const BIT: u64 = 0x100;

const SIGNED: u64 = 0x100_0000;

// The resolutions, as the bits of an f32, with their marks: single is worked out in f32, double in f64.
const SINGLE_0_01: u64 = 0x3C23_D70A_0200_0000;

const SINGLE_0_0001: u64 = 0x38D1_B717_0200_0000;

const DOUBLE_0_01: u64 = 0x3C23_D70A_0400_0000;

const DOUBLE_0_001: u64 = 0x3A83_126F_0400_0000;

const DOUBLE_0_0001: u64 = 0x38D1_B717_0400_0000;

const DOUBLE_1E_6: u64 = 0x3586_37BD_0400_0000;

const DOUBLE_1E_7: u64 = 0x33D6_BF95_0400_0000;

const DOUBLE_1E_16: u64 = 0x24E6_9595_0400_0000;

// The head's and a set's numbers stand in 16 bits each, the first lowest.
const SETS: u64 = 0x1_0000;

const SIZE: u64 = 0x1_0000;

const COUNTER: u64 = 0x1_0000_0000;

const MAXIMUM: u64 = 0x1_0000_0000_0000;

// Position: 2 fields.
pub const TABLE_129025: [u64; 3] = [
    2,
    // 0 latitude, 1 longitude
    NUMBER + 32 * BIT + SIGNED + DOUBLE_1E_7,
    NUMBER + 32 * BIT + SIGNED + DOUBLE_1E_7,
];

// Course and speed over ground: 6 fields.
pub const TABLE_129026: [u64; 7] = [
    6,
    // 0 SID, 1 COG reference, 2 Reserved
    NUMBER + 8 * BIT,
    LOOKUP + 2 * BIT,
    RESERVED + 6 * BIT,
    // 3 COG, 4 SOG, 5 Reserved
    NUMBER + 16 * BIT + SINGLE_0_0001,
    NUMBER + 16 * BIT + SINGLE_0_01,
    RESERVED + 16 * BIT,
];

// Position by satellite: 15 fields, then a set of 3 for each reference station. The last of the 15
// says how many stations follow.
pub const TABLE_129029: [u64; 20] = [
    18 + SETS,
    // 0 SID, 1 date, 2 time
    NUMBER + 8 * BIT,
    DATE + 16 * BIT,
    TIME + 32 * BIT + DOUBLE_0_0001,
    // 3 latitude, 4 longitude, 5 altitude
    NUMBER + 64 * BIT + SIGNED + DOUBLE_1E_16,
    NUMBER + 64 * BIT + SIGNED + DOUBLE_1E_16,
    NUMBER + 64 * BIT + SIGNED + DOUBLE_1E_6,
    // 6 type, 7 method, 8 integrity, 9 Reserved
    LOOKUP + 4 * BIT,
    LOOKUP + 4 * BIT,
    LOOKUP + 2 * BIT,
    RESERVED + 6 * BIT,
    // 10 satellites, 11 HDOP, 12 PDOP, 13 geoidal separation
    NUMBER + 8 * BIT,
    NUMBER + 16 * BIT + SIGNED + SINGLE_0_01,
    NUMBER + 16 * BIT + SIGNED + SINGLE_0_01,
    NUMBER + 32 * BIT + SIGNED + DOUBLE_0_01,
    // 14 stations
    NUMBER + 8 * BIT,
    // of each station: 15 type, 16 id, 17 age of its corrections
    LOOKUP + 4 * BIT,
    NUMBER + 12 * BIT,
    DURATION + 16 * BIT + SINGLE_0_01,
    // the set: from field 15 on
    15 + 3 * SIZE + 14 * COUNTER + 45 * MAXIMUM,
];

// Ours, three numbers to a sample: 8 fields.
pub const TABLE_130900: [u64; 9] = [
    8,
    // 0 manufacturer, 1 Reserved, 2 industry, 3 SID
    LOOKUP + 11 * BIT,
    RESERVED + 2 * BIT,
    LOOKUP + 3 * BIT,
    NUMBER + 8 * BIT,
    // 4, 5, 6 the three numbers, 7 Reserved
    NUMBER + 32 * BIT + SIGNED + DOUBLE_0_001,
    NUMBER + 32 * BIT + SIGNED + DOUBLE_0_001,
    NUMBER + 32 * BIT + SIGNED + DOUBLE_0_001,
    RESERVED + 8 * BIT,
];

impl Message {
    // The words of the message's table.
    fn words(self) -> &'static [u64]
        ensures { result.now ≡ words_of self }
    {
        match self {
            Message::M129025 => &TABLE_129025,
            Message::M129026 => &TABLE_129026,
            Message::M129029 => &TABLE_129029,
            Message::M130900 => &TABLE_130900,
        }
    }

    // The message's table.
    pub fn table(self) -> CheckedTable<'static>
        ensures { result.words.now ≡ words_of self }
    {
        CheckedTable {
            words: self.words(),
        }
    }
}
