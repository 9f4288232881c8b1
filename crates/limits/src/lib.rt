// Document 01's limits, each here alone; the arrays that hold so many are as long.

#![tactic(auto)]

// "At most 160 frequencies .., 64 mains, 256 satellites, 128 shallow."
pub const FREQUENCIES: usize = 160;

pub const MAINS: usize = 64;

pub const SATELLITES: usize = 256;

pub const SHALLOWS: usize = 128;

// "a place is one byte, from 0, in their order".
pub const PLACES: usize = 256;

// A station has "at most 146 constituents", each a record.
pub const RECORDS: usize = 146;

// A line has "at most 80 columns".
pub const COLUMNS: usize = 80;

// "Satellites stand three a card".
pub const SATELLITES_A_CARD: usize = 3;

// A shallow-water constituent's "sizes add up to at most 12".
pub const SIZES: u64 = 12;

// "Minutes run from 0 to days × 1,440 inclusive": the last minute of the longest month.
pub const MINUTES: usize = 44_640;

// "cycles an hour, 0 to 0.4999999999", in 10^-10 cycle.
pub const FREQUENCY: u64 = 4_999_999_999;

// A station's latitude "in signed minutes, -5,400 to 5,400".
pub const LATITUDE: i32 = 5_400;

// "Amplitude is 0 to 65,535 tenths of a millimetre, phase lag 0 to 35,999 hundredths of a degree."
pub const AMPLITUDE: u32 = 65_535;

pub const PHASE: u32 = 35_999;

// 02, No. 6: "three stride lengths in minutes, .. each 1 to 720".
pub const STRIDE: u32 = 720;

// A series has "a step of 1 to 1,440 minutes".
pub const STEP: u64 = 1_440;
