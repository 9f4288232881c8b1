// Names: five columns of a line, compared with a row of names.
ghost use Rattle.std.specs.Prelude.{◌≡◌, ◌+◌, ◌-◌, ◌*◌, ◌<◌, get_or, take, drop};
ghost use Rattle.columns.specs.Bytes.{blank, every};
ghost use Rattle.columns.specs.Columns.{padded, columns};
ghost use Rattle.columns.specs.Names.{same, name_at, names_from, place_of};

// The name in five columns of the line, as a part of the lent line: shorter where the line ends before.
pub fn name_part(line: &[u8], from: usize) -> &[u8]
    ensures result_value { result.now ≡ take 5 (drop from line.now) }
    ensures result_value_2 { columns result.now 0 5 ≡ columns line.now from 5 }
{
    crate::part(line, from, 5)
}

// Whether the name, padded, is blank.
pub fn name_blank(part: &[u8]) -> bool
    ensures { result ≡ every blank (columns part.now 0 5) }
{
    crate::all_among(part, 0, 5, b' ', b' ')
}

// The name at a place of a row of names of five bytes each, as a part of the row.
fn name_at(names: &[u8], place: usize) -> &[u8]
    ensures { result.now ≡ take 5 (drop (5 * place) names.now) }
{
    if names.len() / 5 < place {
        return &names[..0];
    }
    crate::part(names, 5 * place, 5)
}

// The byte at k; 0 past the end of the row.
// (Beside `column`, which has a blank there: one for both would take the missing byte as a parameter in each call, which says less than two names.)
fn byte(row: &[u8], k: usize) -> u8
    ensures { result ≡ get_or row.now k 0 }
{
    if k < row.len() { row[k] } else { 0 }
}

// Whether a name, padded, is the five bytes of a row.
fn same_name(part: &[u8], row: &[u8]) -> bool
    ensures { result ≡ same (columns part.now 0 5) (padded 0 row.now 0 5) }
{
    for j in 0..5 {
        if crate::column(part, j) != byte(row, j) {
            return false;
        }
    }
    true
}

// Whether the name, padded, is the one at a place of the row of names.
fn is_name(part: &[u8], names: &[u8], place: usize) -> bool
    ensures { result ≡ same (columns part.now 0 5) (name_at names.now place) }
{
    same_name(part, name_at(names, place))
}

// The first place below `count` whose name is this one, padded.
pub fn find_name(part: &[u8], names: &[u8], count: usize) -> Option<usize>
    ensures { result ≡ place_of (columns part.now 0 5) (names_from names.now 0 count) }
{
    for k in 0..count {
        if is_name(part, names, k) {
            return Some(k);
        }
    }
    None
}
