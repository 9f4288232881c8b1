// The plain words of a command line, and whether they fit a form.
use crate::numbers::number;
use crate::times::time_of;
use crate::{Wrong, WrongWord};

// What a plain word can say: a whole number, or a time of day.
#[derive(Clone, Copy)]
enum Says {
    Number(u32),
    Time(u32),
}

// A plain word: where it begins, and what it says, if it is a number or a time.
#[derive(Clone, Copy)]
pub struct PlainWord {
    pub start: usize,
    says: Option<Says>,
}

// What a word of a form has to be: a file's name may be any word.
#[derive(Clone, Copy)]
pub enum Wanted {
    Number,
    Time,
    File,
}

// A command's form: the fewest words behind its own, and what each of them has to be.
#[derive(Clone, Copy)]
pub struct Form {
    pub least: usize,
    pub wanted: &'static [Wanted],
}

// The plain words, of which no command has more than eight: how many there are, and what each is.
#[derive(Clone, Copy)]
pub struct Plain {
    count: usize,
    pub words: [PlainWord; 8],
}

// A plain word that begins at a byte.
pub fn plain_of(word: &[u8], start: usize) -> PlainWord {
    let says = match time_of(word) {
        Some(minute) => Some(Says::Time(minute)),
        None => number(word, 0, word.len(), u32::MAX).map(Says::Number),
    };
    PlainWord { start, says }
}

impl PlainWord {
    // The number or the time; 0 where it is neither.
    fn value(&self) -> u32 {
        match self.says {
            Some(Says::Number(value) | Says::Time(value)) => value,
            None => 0,
        }
    }

    // What is wrong with it at a place of a form.
    fn check(&self, wanted: Wanted) -> Result<(), WrongWord> {
        match (wanted, self.says) {
            (Wanted::File, _)
            | (Wanted::Number, Some(Says::Number(_)))
            | (Wanted::Time, Some(Says::Time(_))) => Ok(()),
            (Wanted::Number, _) => Err(Wrong::NotNumber.at(self.start)),
            (Wanted::Time, _) => Err(Wrong::NotTime.at(self.start)),
        }
    }
}

impl Plain {
    // No word.
    pub const NOTHING: Plain = Plain {
        count: 0,
        words: [PlainWord {
            start: 0,
            says: None,
        }; 8],
    };

    // Adds a word; one past the eighth is left out, as no form has room for the eighth.
    pub fn push(&mut self, word: PlainWord) {
        if self.count < 8 {
            self.words[self.count] = word;
            self.count += 1;
        }
    }

    // How many there are.
    pub fn count(&self) -> usize {
        self.count
    }

    // What their numbers and times are.
    pub fn values(&self) -> [u32; 8] {
        let mut values = [0; 8];
        for (value, word) in values.iter_mut().zip(&self.words) {
            *value = word.value();
        }
        values
    }

    // The first word behind the first, the command's own, that does not fit a form; or that there are too few or too many.
    pub fn fit(&self, form: Form) -> Result<(), WrongWord> {
        if self.count <= form.least {
            return Err(Wrong::TooFew.at(self.words[0].start));
        }
        let mut behind = self.words.iter().take(self.count).skip(1);
        if let Some(extra) = behind.nth(form.wanted.len()) {
            return Err(Wrong::TooMany.at(extra.start));
        }
        let words = self.words.iter().take(self.count).skip(1);
        for (word, wanted) in words.zip(form.wanted) {
            word.check(*wanted)?;
        }
        Ok(())
    }
}
