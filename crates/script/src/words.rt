// The words of a line, and the decimal numbers among them.
ghost use Rattle.std.specs.Prelude.{◌≡◌, ◌+◌, ◌-◌, ◌≤◌, length, drop, []};
ghost use Rattle.script.specs.Words.{number, reading, numbers_after};
ghost use Rattle.script.specs.inner.Left.{words_from, word_length, reading_at};

// A number in a line, and where the next word begins; past the line's end where there is none.
#[derive(Clone, Copy)]
pub struct Field {
    pub value: u32,
    pub next: usize,
}

// The digit's value.
fn digit(byte: u8) -> u64
    requires { 48 ≤ byte }
    ensures value { result ≡ byte - 48 }
    ensures upper_bound { result ≤ 255 }
{
    (byte - b'0') as u64
}

// A word as a decimal number of at most `most`.
fn number_of(word: &[u8], most: u32) -> Option<u32>
    ensures { result ≡ number most word.now }
{
    if word.len() == 0 {
        return None;
    }
    let mut value: u64 = 0;
    for b in word {
        let byte = *b;
        if byte < b'0' {
            return None;
        }
        if b'9' < byte {
            return None;
        }
        let next = 10 * value + digit(byte);
        if (most as u64) < next {
            return None;
        }
        value = next;
    }
    Some(value as u32)
}

// How long the word is that a text begins with.
fn word_length(text: &[u8]) -> usize
    ensures value { result ≡ word_length text.now }
    ensures upper_bound { result ≤ length text.now }
{
    text.iter().position(|b| *b == b' ').unwrap_or(text.len())
}

// Where the word ends that begins at a byte of a line.
pub fn word_end(line: &[u8], at: usize) -> usize
    requires { at ≤ length line.now }
    ensures value { result ≡ at + word_length (drop at line.now) }
    ensures upper_bound { result ≤ length line.now }
{
    at + word_length(&line[at..])
}

// The number that stands at a byte of a line, of at most `most`.
pub fn field_at(line: &[u8], at: usize, most: u32) -> Option<Field>
    ensures { reading_at line.now result ≡ reading most (words_from line.now at) }
{
    if line.len() < at {
        return None;
    }
    let end = word_end(line, at);
    let value = number_of(&line[at..end], most)?;
    Some(Field {
        value,
        next: end + 1,
    })
}

// The N numbers that stand at a byte of a line, with nothing behind them.
pub fn numbers_at<const N: usize>(line: &[u8], at: usize) -> Option<[u32; N]>
    ensures { result ≡ numbers_after [] N (words_from line.now at) }
{
    let mut numbers = [0; N];
    let mut next = at;
    for number in numbers.iter_mut() {
        let field = field_at(line, next, u32::MAX)?;
        *number = field.value;
        next = field.next;
    }
    if next <= line.len() {
        return None;
    }
    Some(numbers)
}
