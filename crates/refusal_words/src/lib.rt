// The words of 01's refusals and of those that requests add, each beside its number.
#![tactic(auto)]

ghost use Rattle.std.specs.Prelude.{◌≡◌, ◌≤◌, length};
ghost use Rattle.refusal_words.specs.Words.{words_of, bytes_of, zeros_behind};

// Words with zeros behind them.
fn with_zeros(words: &[u8]) -> [u8; 64]
    requires { length words.now ≤ 64 }
    ensures { result ≡ zeros_behind words.now }
{
    let mut text = [0; 64];
    for (k, letter) in words.iter().enumerate() {
        text[k] = *letter;
    }
    text
}

// The words of the refusal that has a number, with zeros behind them; no words for a number that none has.
pub fn text_of(number: u32) -> [u8; 64]
    ensures { result ≡ zeros_behind (bytes_of (words_of number)) }
{
    match number {
        1 => with_zeros(b"line over 80 columns or a byte outside 32 to 126"),
        2 => with_zeros(b"malformed number"),
        3 => with_zeros(b"number outside its stated range"),
        4 => with_zeros(b"name blank or twice, or place repeated"),
        5 => with_zeros(b"no such frequency, main or definition"),
        6 => with_zeros(b"more entries than stated"),
        7 => with_zeros(b"file ends inside a part"),
        8 => with_zeros(b"year or month out of range"),
        9 => with_zeros(b"minutes outside the month or reversed, or step out of range"),
        10 => with_zeros(b"more turns than the lent buffers hold"),
        11 => with_zeros(b"size of X or Y over 2^22"),
        21 => with_zeros(b"no table"),
        22 => with_zeros(b"no station"),
        23 => with_zeros(b"no month"),
        31 => with_zeros(b"the two lent buffers differ in length"),
        32 => with_zeros(b"station number over 99999"),
        33 => with_zeros(b"a height outside -999 to 9998"),
        34 => with_zeros(b"buffer too short for the month"),
        35 => with_zeros(b"a stride outside 1 to 720 minutes"),
        _ => with_zeros(b""),
    }
}
