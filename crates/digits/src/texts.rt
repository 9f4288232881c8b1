// Texts: the same bytes, the blanks at an end, and the names of Greenwich's time.
ghost use Rattle.std.specs.Prelude.{◌≡◌, take};
ghost use Rattle.columns.specs.Names.{same};
ghost use Rattle.digits.specs.Texts.{trimmed, names_greenwich, greenwich};

// Whether two texts are the same.
pub fn same<'a>(a: &'a [u8], b: &'a [u8]) -> bool
    ensures { result ≡ same a.now b.now }
{
    a == b
}

// How long a text is without the blanks at its end.
fn trimmed_length(text: &[u8]) -> usize
    ensures { take result text.now ≡ trimmed text.now }
{
    for n in (0..text.len()).rev() {
        if text[n] != b' ' {
            return n + 1;
        }
    }
    0
}

// The text without the blanks at its end, as a part of it.
pub fn trimmed(text: &[u8]) -> &[u8]
    ensures { result.now ≡ trimmed text.now }
{
    columns::part(text, 0, trimmed_length(text))
}

// Whether a word names Greenwich's time: nothing, GMT, UT or UTC.
#[tactic(auto, unfolding(crate::specs::Texts::names_greenwich))]
fn names_greenwich(word: &[u8]) -> bool
    ensures { result ≡ names_greenwich word.now }
{
    same(word, b"") || same(word, b"GMT") || same(word, b"UT") || same(word, b"UTC")
}

// Whether a zone, without the blanks at its end, is Greenwich's.
pub fn is_greenwich(zone: &[u8]) -> bool
    ensures { result ≡ greenwich zone.now }
{
    names_greenwich(trimmed(zone))
}
