// A station's records as they are lent, one for each constituent, taken apart into an array for each field.
ghost use Rattle.std.specs.Prelude.{◌≡◌, ◌<◌, min};
ghost use Rattle.limits.specs.Limits.{most_records};
ghost use Rattle.station.specs.Records.{record_at};
ghost use Rattle.station.specs.inner.Rows.{no_rows, put_row, rows_of};

use limits::RECORDS;

// One of a station's constituents, as it is lent: its place in the table, its amplitude and its phase lag.
#[repr(C)]
#[derive(Clone, Copy)]
pub struct Record {
    pub place: u8,
    pub amplitude: u32,
    pub phase: u32,
}

// The records taken apart: an array for each field.
#[derive(Clone, Copy)]
pub struct Rows {
    pub places: [u8; RECORDS],
    pub amplitudes: [u32; RECORDS],
    pub phases: [u32; RECORDS],
}

// Rows with one more record.
pub fn put(rows: Rows, k: usize, one: Record) -> Rows
    requires { k < most_records }
    ensures { result ≡ put_row rows k one.place one.amplitude one.phase }
{
    let mut out = rows;
    out.places[k] = one.place;
    out.amplitudes[k] = one.amplitude;
    out.phases[k] = one.phase;
    out
}

// Record k of the rows.
pub fn nth_record(rows: &Rows, k: usize) -> Record
    requires { k < most_records }
    ensures { result ≡ record_at rows.now k }
{
    Record {
        place: rows.places[k],
        amplitude: rows.amplitudes[k],
        phase: rows.phases[k],
    }
}

// No rows yet.
pub fn no_rows() -> Rows
    ensures { result ≡ no_rows }
{
    Rows {
        places: [0u8; RECORDS],
        amplitudes: [0u32; RECORDS],
        phases: [0u32; RECORDS],
    }
}

// Past 146 nothing is taken: a longer row is refused by its count. (No `min`: it calls std's code, which `has-the-clock` of claim_runs can't have.)
pub fn at_most(n: usize) -> usize
    ensures { result ≡ min n most_records }
{
    if n < RECORDS { n } else { RECORDS }
}

// The records taken apart, the first 146 of them: the thin function over the lent slice of structs.
pub fn rows_of(rs: &[Record]) -> Rows
    ensures { result ≡ rows_of rs.now }
{
    let mut rows = no_rows();
    for (i, r) in rs[..at_most(rs.len())].iter().enumerate() {
        rows = put(rows, i, *r);
    }
    rows
}
