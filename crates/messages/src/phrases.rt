// Which words say what: a text has a row of words for each thing, trouble or wrong word, in the order in which they are declared.
ghost use Rattle.std.specs.Prelude.{◌≡◌, ℕ};
ghost use Rattle.columns.specs.Bytes.{among, leading};
ghost use Rattle.columns.specs.Lines.{lines_of};
ghost use Rattle.messages.specs.Lines.{line_at};
ghost use Rattle.messages.specs.Rows.{what_row, trouble_row, wrong_row};

use crate::textlines::line_of;
use card::faults::{Trouble, What};
use commandline::Wrong;

// What has a row of words.
pub trait Worded {
    ghost its_row: { Self → ℕ };

    // Its row.
    fn row(self) -> usize
        ensures { result ≡ its_row self };
}

// What is at fault.
impl Worded for What {
    ghost its_row = { what_row };

    fn row(self) -> usize {
        self as usize
    }
}

// What is wrong with it.
impl Worded for Trouble {
    ghost its_row = { trouble_row };

    fn row(self) -> usize {
        self as usize
    }
}

// What is wrong with a word of the command line that cannot be followed.
impl Worded for Wrong {
    ghost its_row = { wrong_row };

    fn row(self) -> usize {
        self as usize
    }
}

// Its words, of a text.
pub fn words_of<T: Worded>(text: &[u8], thing: T) -> &[u8]
    ensures { result.now ≡ line_at (lines_of text.now) (T.its_row thing) }
{
    line_of(text, thing.row())
}

// Words that have zeros behind them, without the zeros.
pub fn without_zeros(text: &[u8]) -> &[u8]
    ensures { result.now ≡ leading (among 1 255) text.now }
{
    columns::part(text, 0, columns::run_end(text, 0, text.len(), 1, 255))
}

// The words of a system's error, without its number, which the library writes behind them as " (os error 2)".
pub fn without_number(words: &[u8]) -> &[u8] {
    let number: &[u8] = b" (os error ";
    match words.windows(number.len()).position(|part| part == number) {
        Some(end) => columns::part(words, 0, end),
        None => words,
    }
}
