// The three stride lengths of a station as a word says them: S,M,D in minutes, for semidiurnal, mixed and diurnal tides.
ghost use Rattle.std.specs.Prelude.{◌≡◌, ◌≤◌};
ghost use Rattle.commandline.specs.Lengths.{comma_at, length_end, length_in, lengths_of};
ghost use Rattle.commandline.specs.Numbers.{number_in};

use crate::numbers::number;
use station::strides::Strides;

// Where the bytes of a length end that begins at a byte: a comma is below each of them.
// (It and `word_end` of `row` are one call of `columns::run_end` each, for a definition each: one for both would be that call again.)
#[tactic(auto, using(crate::proofs::Words::row_from), unfolding(crate::specs::Lengths::length_end))]
fn length_end(word: &[u8], at: usize) -> usize
    ensures { result ≡ length_end word.now at }
{
    columns::run_end(word, at, word.len(), 45, 255)
}

// Whether a comma stands at a byte.
#[tactic(auto, unfolding(crate::specs::Lengths::comma_at))]
fn comma_at(word: &[u8], at: usize) -> bool
    ensures { result ≡ comma_at word.now at }
{
    at < word.len() && columns::column(word, at) == b','
}

// The length that stands from one byte up to another, of any size: the clock says which it takes.
#[tactic(auto, unfolding(crate::specs::Lengths::length_in))]
fn length_in(word: &[u8], from: usize, end: usize) -> Option<u32>
    requires { from ≤ end }
    ensures { result ≡ number_in (length_in word.now from end) }
{
    number(word, from, end - from, u32::MAX)
}

// The three lengths that a word says; none where it says no three.
#[tactic(auto, using(crate::proofs::Commas::comma_within, crate::proofs::Commas::end_least), unfolding(crate::specs::Lengths::lengths_of))]
pub fn lengths_of(word: &[u8]) -> Option<Strides>
    ensures { result ≡ lengths_of word.now }
{
    let first = length_end(word, 0);
    if !comma_at(word, first) {
        return None;
    }
    let second = length_end(word, first + 1);
    if !comma_at(word, second) {
        return None;
    }
    let third = length_end(word, second + 1);
    if third != word.len() {
        return None;
    }
    let semidiurnal = length_in(word, 0, first)?;
    let mixed = length_in(word, first + 1, second)?;
    let diurnal = length_in(word, second + 1, third)?;
    Some(Strides {
        semidiurnal,
        mixed,
        diurnal,
    })
}
