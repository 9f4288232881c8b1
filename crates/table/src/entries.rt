// A number of a row of the table's arrays, by its column: none past the row's width or the array's end.
ghost use Rattle.std.specs.Prelude.{◌≡◌, ◌≤◌, get_or, length};
ghost use Rattle.table.specs.inner.View.{row_of};

use crate::at;

// A number of a row, or `none` past the rows and columns.
pub fn entry_at<'a, T>(
    numbers: &'a [T],
    width: usize,
    row: usize,
    column: usize,
    none: &'a T,
) -> &'a T
    requires { (width ≤ 8) × (length numbers.now ≤ 1024) }
    ensures { result.now ≡ get_or (row_of none.now width numbers.now row) column none.now }
{
    if width <= column || 1_024 <= row {
        return none;
    }
    at(numbers, width * row + column, none)
}
