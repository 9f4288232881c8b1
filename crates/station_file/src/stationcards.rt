// The station card's name and time zone (001, section 3.3).
ghost use Rattle.std.specs.Prelude.{◌≡◌, take, drop};
ghost use Rattle.columns.specs.Lines.{first_line};
ghost use Rattle.station_file.specs.Formats.{name_column, name_width, zone_column, zone_width};

// The station's name: 22 columns of the first line, as a part of the lent file, or as many as the line has.
// (It and `time_zone` are one call of `columns::part` each: one for both would be that call again, with its two numbers as parameters.)
pub fn station_name(file: &[u8]) -> &[u8]
    ensures { result.now ≡ take name_width (drop name_column (first_line file.now)) }
{
    columns::part(columns::first_line(file), 10, 22)
}

// The station's time zone: 3 columns of the first line, as a part of the lent file, or as many as the line has.
pub fn time_zone(file: &[u8]) -> &[u8]
    ensures { result.now ≡ take zone_width (drop zone_column (first_line file.now)) }
{
    columns::part(columns::first_line(file), 32, 3)
}
