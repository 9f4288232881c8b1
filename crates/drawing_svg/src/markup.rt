// Text of a drawing, before it is put on a page: the numbers in a form's blanks, and text as XML has it, that is, which bytes are
// characters of UTF-8 beyond ASCII, and how a character of ASCII is written.
ghost use Rattle.std.specs.Prelude.{◌≡◌, get_or, MatchOption, ◌∷◌, []};
ghost use Rattle.drawing_svg.specs.Forms.{is_blank, number_for};
ghost use Rattle.drawing_svg.specs.Utf8.{is_from, size_from, second_low, second_high, is_second, is_later, goes_on, sequence_of};
ghost use Rattle.drawing_svg.specs.Escapes.{shown_as, written_of};

// Whether a byte is from one to another.
// (`calendar` has it for numbers, as `between`: one for both would need a bound and a crate below both, for a single line, which is no plainer.)
#[tactic(auto, unfolding(crate::specs::Utf8::is_from))]
fn is_from(low: u8, high: u8, byte: u8) -> bool
    ensures { result ≡ is_from low high byte }
{
    low <= byte && byte <= high
}

// How many bytes a character of UTF-8 has that begins with a byte; 0 where it is ASCII or no character begins so.
// (No Option: a count, as the definition `size_from` has it.)
#[tactic(auto, unfolding(crate::specs::Utf8::size_from, crate::specs::Utf8::is_from))]
fn sequence_size(byte: u8) -> usize
    ensures { result ≡ size_from byte }
{
    match byte {
        194..=223 => 2,
        224..=239 => 3,
        240..=244 => 4,
        _ => 0,
    }
}

// The least second byte after a first.
// (It and `second_high` follow a definition of specs/Utf8 each. One for both would take two first bytes and three bounds as parameters, which is no plainer.)
#[tactic(auto, unfolding(crate::specs::Utf8::second_low))]
fn second_low(first: u8) -> u8
    ensures { result ≡ second_low first }
{
    match first {
        224 => 160,
        240 => 144,
        _ => 128,
    }
}

// The greatest second byte after a first.
#[tactic(auto, unfolding(crate::specs::Utf8::second_high))]
fn second_high(first: u8) -> u8
    ensures { result ≡ second_high first }
{
    match first {
        237 => 159,
        244 => 143,
        _ => 191,
    }
}

// The byte at a place; 0 past the end.
// (`columns` has the same line, in `names`: this crate stands on `output` alone, and one line is no reason to stand on another.)
fn byte_at(text: &[u8], i: usize) -> u8
    ensures { result ≡ get_or text.now i 0 }
{
    if i < text.len() { text[i] } else { 0 }
}

// Whether the second byte of a text goes with the first.
#[tactic(auto, unfolding(crate::specs::Utf8::is_second))]
fn is_second(text: &[u8]) -> bool
    ensures { result ≡ is_second text.now }
{
    let first = byte_at(text, 0);
    is_from(second_low(first), second_high(first), byte_at(text, 1))
}

// Whether the byte at a place goes with a character of so many bytes, where it has one there.
#[tactic(auto, unfolding(crate::specs::Utf8::is_later))]
fn is_later(text: &[u8], size: usize, i: usize) -> bool
    ensures { result ≡ is_later text.now size i }
{
    size <= i || is_from(128, 191, byte_at(text, i))
}

// Whether the bytes behind the first of a text are those of a character of so many.
#[tactic(auto, unfolding(crate::specs::Utf8::goes_on))]
fn goes_on(text: &[u8], size: usize) -> bool
    ensures { result ≡ goes_on text.now size }
{
    is_second(text) && is_later(text, size, 2) && is_later(text, size, 3)
}

// The bytes of the character beyond ASCII with which a text begins; 0 where it begins with none (a count, as the definition `sequence_of` has it).
#[tactic(auto, unfolding(crate::specs::Utf8::sequence_of))]
pub fn sequence(text: &[u8]) -> usize
    ensures { result ≡ sequence_of text.now }
{
    let size = sequence_size(byte_at(text, 0));
    if goes_on(text, size) { size } else { 0 }
}

// How XML has a character of ASCII: by its name where XML keeps it for itself, else as `shown` has it, in the byte that is lent.
pub fn written(byte: u8, own: &mut [u8; 1]) -> &[u8]
    ensures { result.now ≡ written_of byte }
{
    match name_of(byte) {
        Some(name) => name,
        None => {
            *own = [shown(byte)];
            own
        }
    }
}

// The name by which XML has a character of ASCII that it keeps for itself; none for any other, which is written as `shown` has it.
#[tactic(auto, unfolding(crate::specs::Escapes::written_of))]
pub fn name_of(byte: u8) -> Option<&'static [u8]>
    ensures { MatchOption result (written_of byte ≡ shown_as byte ∷ []) (λ name. name.now ≡ written_of byte) }
{
    match byte {
        b'"' => Some(b"&quot;"),
        b'&' => Some(b"&amp;"),
        b'<' => Some(b"&lt;"),
        b'>' => Some(b"&gt;"),
        _ => None,
    }
}

// A character that can be seen, as it is; a question mark for what XML has not.
#[tactic(auto, unfolding(crate::specs::Escapes::shown_as, crate::specs::Utf8::is_from))]
pub fn shown(byte: u8) -> u8
    ensures { result ≡ shown_as byte }
{
    match byte {
        b' '..=b'~' => byte,
        _ => b'?',
    }
}

// Whether a byte of a form is a blank.
#[tactic(auto, unfolding(crate::specs::Forms::is_blank))]
pub fn is_blank(byte: u8) -> bool
    ensures { result ≡ is_blank byte }
{
    matches!(byte, b'@' | b'$' | b'~' | b'^')
}

// The number that stands for a blank of a form.
#[tactic(auto, unfolding(crate::specs::Forms::number_for))]
pub fn number_for(byte: u8, numbers: &[u64]) -> u64
    ensures { result ≡ number_for byte numbers.now }
{
    let place = match byte {
        b'@' => 0,
        b'$' => 1,
        b'~' => 2,
        _ => 3,
    };
    if place < numbers.len() {
        numbers[place]
    } else {
        0
    }
}
