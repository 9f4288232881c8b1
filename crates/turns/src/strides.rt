// The stride of a station's own tides, by the amplitudes of K1, O1, M2 and S2.
ghost use Rattle.std.specs.Prelude.{◌≡◌, false, ◌≤◌, ◌<◌};
ghost use Rattle.limits.specs.Limits.{most_stride};
ghost use Rattle.station.specs.Strides.{strides_outside};
ghost use Rattle.columns.specs.Columns.{columns};
ghost use Rattle.table.specs.inner.View.{table_of};
ghost use Rattle.station.specs.inner.Station.{station_of};
ghost use Rattle.turns.specs.Strides.{amplitude_at, amplitude_of, station_stride};

use crate::tides::stride;
use columns::names;
use station::Station;
use table::Table;

// The amplitude of the record with this place, or 0.
fn amplitude_at(station: Station, place: usize) -> u16
    ensures { result ≡ amplitude_at (station_of station).records place }
{
    let count = month_prepared::held(station.count);
    for k in 0..count {
        if station.places[k] as usize == place {
            return station.amplitudes[k];
        }
    }
    0
}

// The amplitude of the constituent with this name, or 0.
fn amplitude_of(table: Table, station: Station, name: &[u8]) -> u16
    ensures { result ≡ amplitude_of (table_of table) (station_of station) (columns name.now 0 5) }
{
    let found = names::find_name(name, &table.names, table.frequencies);
    match found {
        Some(place) => amplitude_at(station, place),
        None => 0,
    }
}

// The stride of the search for turns: the station's own length for its tides.
pub fn station_stride(table: Table, station: Station) -> u64
    requires { strides_outside station.strides ≡ false }
    ensures value { result ≡ station_stride (table_of table) (station_of station) }
    ensures result_nonzero { (0 < result) × (result ≤ most_stride) }
{
    let k1 = amplitude_of(table, station, b"K1   ");
    let o1 = amplitude_of(table, station, b"O1   ");
    let m2 = amplitude_of(table, station, b"M2   ");
    let s2 = amplitude_of(table, station, b"S2   ");
    stride(station.strides, k1, o1, m2, s2)
}
