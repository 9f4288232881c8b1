// A time of day as a word says it.
ghost use Rattle.std.specs.Prelude.{◌≡◌};
ghost use Rattle.commandline.specs.Times.{time_of};

use crate::numbers::number;

// The minute of the day that a word HH:MM is; none where it is no time.
#[tactic(auto, unfolding(crate::specs::Times::time_of))]
pub fn time_of(word: &[u8]) -> Option<u32>
    ensures { result ≡ time_of word.now }
{
    if word.len() != 5 || columns::column(word, 2) != b':' {
        return None;
    }
    let hour = number(word, 0, 2, 23)?;
    let minute = number(word, 3, 2, 59)?;
    Some(60 * hour + minute)
}
