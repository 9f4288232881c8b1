// The row of words: the default ones at its front, the arguments behind them, each ended by a byte 0. A word is named by where it begins.
ghost use Rattle.std.specs.Prelude.{◌≡◌, ◌+◌, length};
ghost use Rattle.commandline.specs.Words.{default_byte, word_at};

// Where the default words begin.
pub const CARDS: usize = 0;

pub const STATION: usize = 24;

pub const FEET: usize = 42;

pub const METRES: usize = 47;

// Where the arguments begin, behind the default words.
pub const ARGUMENTS: usize = 54;

// The byte of the default words at a place; 0 behind them.
pub fn default_byte(k: usize) -> u8
    ensures { result ≡ default_byte k }
{
    if ARGUMENTS <= k {
        return 0;
    }
    columns::column(
        b"data/standard-cards.txt\0data/victoria.txt\0feet\0metres\0",
        k,
    )
}

// Where the word ends that begins at a byte, or the row where nothing ends it.
// (It and `length_end` of `lengths` are one call of `columns::run_end` each, for a definition each: one for both would be that call again.)
#[tactic(auto, using(crate::proofs::Words::row_from), unfolding(crate::specs::Words::word_at))]
fn word_end(words: &[u8], at: usize) -> usize
    ensures { result ≡ at + length (word_at words.now at) }
{
    columns::run_end(words, at, words.len(), 1, 255)
}

// The word that begins at a byte, as a part of the row.
#[tactic(auto, unfolding(crate::specs::Words::word_at))]
pub fn word(words: &[u8], at: usize) -> &[u8]
    ensures { result.now ≡ word_at words.now at }
{
    columns::part(words, at, word_end(words, at) - at)
}

// The byte behind the end of the word that begins at a byte; the row's end is behind all.
pub fn behind(words: &[u8], at: usize) -> usize {
    let end = word_end(words, at);
    if end < words.len() { end + 1 } else { end }
}
