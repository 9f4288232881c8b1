// The words of a command line, sorted: its options, and its plain words.
use crate::plain::{Plain, plain_of};
use crate::row::{ARGUMENTS, behind, word};

// What a word is: an option with a value or without, one that is not known, or plain.
#[derive(Clone, Copy)]
enum Kind {
    Valued(Valued),
    Csv,
    Help,
    Unknown,
    Plain,
}

// An option that has a value.
#[derive(Clone, Copy)]
enum Valued {
    Cards,
    Station,
    Unit,
    Strides,
}

// What is read so far: the plain words; where the values begin of the options that have one; where --csv stands; whether help is asked;
// an option that is not known, and one that has no value.
#[derive(Clone, Copy)]
pub struct Parsed {
    pub plain: Plain,
    pub cards: Option<usize>,
    pub station: Option<usize>,
    pub unit: Option<usize>,
    pub lengths: Option<usize>,
    pub csv: Option<usize>,
    pub help: bool,
    pub unknown: Option<usize>,
    pub missing: Option<usize>,
}

// What a word is.
fn kind_of(word: &[u8]) -> Kind {
    match word {
        b"--cards" => Kind::Valued(Valued::Cards),
        b"--station" => Kind::Valued(Valued::Station),
        b"--unit" => Kind::Valued(Valued::Unit),
        b"--strides" => Kind::Valued(Valued::Strides),
        b"--csv" => Kind::Csv,
        b"--help" | b"-h" => Kind::Help,
        [b'-', ..] => Kind::Unknown,
        _ => Kind::Plain,
    }
}

impl Parsed {
    // Nothing is read yet.
    fn nothing() -> Self {
        Parsed {
            plain: Plain::NOTHING,
            cards: None,
            station: None,
            unit: None,
            lengths: None,
            csv: None,
            help: false,
            unknown: None,
            missing: None,
        }
    }

    // Takes the value of an option, which begins at a byte.
    fn take_value(&mut self, option: Valued, value: usize) {
        match option {
            Valued::Cards => self.cards = Some(value),
            Valued::Station => self.station = Some(value),
            Valued::Unit => self.unit = Some(value),
            Valued::Strides => self.lengths = Some(value),
        }
    }

    // Takes the word that begins at a byte, with the value of an option; gives where the next begins.
    fn take_word(&mut self, words: &[u8], at: usize) -> usize {
        let next = behind(words, at);
        match kind_of(word(words, at)) {
            Kind::Valued(option) => {
                self.take_value(option, next);
                if words.len() <= next {
                    self.missing = Some(at);
                }
                return behind(words, next);
            }
            Kind::Csv => self.csv = Some(at),
            Kind::Help => self.help = true,
            Kind::Unknown => self.unknown = Some(at),
            Kind::Plain => self.plain.push(plain_of(word(words, at), at)),
        }
        next
    }
}

// All words. Each step leaves a word behind it, so that a step for each byte is enough.
pub fn all_words(words: &[u8]) -> Parsed {
    let mut parsed = Parsed::nothing();
    let mut at = ARGUMENTS;
    for _ in 0..words.len() {
        if words.len() <= at {
            break;
        }
        at = parsed.take_word(words, at);
    }
    parsed
}
