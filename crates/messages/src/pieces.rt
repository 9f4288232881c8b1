// The words, a row each, in the order that `phrases` has.
use crate::phrases;
use card::faults::{Trouble, What};
use commandline::Wrong;
use refusals::Refusal;
use std::io;
use std::io::Write;

// The rows of what is at fault.
static WHAT: [u8; 284] = *b"the file\n\
       the line\n\
       name\n\
       frequency\n\
       longitude\n\
       increase of longitude\n\
       Doodson number\n\
       phase\n\
       satellite count\n\
       a difference of satellite\n\
       phase of satellite\n\
       ratio of satellite\n\
       number of parts\n\
       coefficient\n\
       part\n\
       degrees of latitude\n\
       minutes of latitude\n\
       mark of latitude\n\
       latitude\n\
       amplitude\n\
       phase lag";

// What is at fault.
// (It and `write_wrong` are one call of `words_of` each, which is the function for both: they name its text.)
pub fn write_what(to: &impl Print, what: What) -> io::Result<()> {
    to.write_all(phrases::words_of(&WHAT, what))
}

// The rows of what is wrong with it; ~ stands for the limit that is passed.
static TROUBLE: [u8; 559] = *b"is over ~ columns long\n\
       has a byte outside 32 to 126\n\
       is a malformed number\n\
       is out of range\n\
       is not a whole number\n\
       takes the sizes past ~\n\
       is not one letter, N or S\n\
       says south beside a minus\n\
       is blank\n\
       stands twice\n\
       has no frequency\n\
       has no definition\n\
       is not a main constituent\n\
       is past ~ frequencies\n\
       is past ~ main constituents\n\
       takes the satellites past ~\n\
       is past ~ shallow-water constituents\n\
       is past ~ constituents\n\
       ends inside the frequencies\n\
       ends inside the longitudes\n\
       ends inside the main constituents\n\
       ends inside the shallow-water constituents\n\
       has no station card";

// What is wrong with it.
pub fn write_trouble(to: &impl Print, trouble: Trouble) -> io::Result<()> {
    write_limited(to, phrases::words_of(&TROUBLE, trouble), limit_of(trouble))
}

// Words with a limit, if there is one, where ~ stands.
fn write_limited(to: &impl Print, words: &[u8], limit: Option<u64>) -> io::Result<()> {
    let mark = words.iter().position(|byte| *byte == b'~');
    let (Some(limit), Some(mark)) = (limit, mark) else {
        return to.write_all(words);
    };
    to.write_all(&words[..mark])?;
    to.print(limit)?;
    to.write_all(&words[mark + 1..])
}

// The limit of which a trouble speaks.
fn limit_of(trouble: Trouble) -> Option<u64> {
    match trouble {
        Trouble::TooLong => Some(limits::COLUMNS as u64),
        Trouble::PastTwelve => Some(limits::SIZES),
        Trouble::TooManyFrequencies => Some(limits::FREQUENCIES as u64),
        Trouble::TooManyMains => Some(limits::MAINS as u64),
        Trouble::TooManySatellites => Some(limits::SATELLITES as u64),
        Trouble::TooManyShallows => Some(limits::SHALLOWS as u64),
        Trouble::TooManyRecords => Some(limits::RECORDS as u64),
        _ => None,
    }
}

// The general words of a refusal, which are 01's.
pub fn write_general(to: &impl Print, refusal: Refusal) -> io::Result<()> {
    let text = refusal_words::text_of(refusals::number_of(refusal));
    to.write_all(phrases::without_zeros(&text))
}

// The rows of what is wrong with a word of the command line.
static WRONG: [u8; 216] = *b": no such command\n\
       : no such option\n\
       : its value is missing\n\
       : more words are wanted\n\
       : one word too many\n\
       : not a whole number\n\
       : not a time HH:MM\n\
       : not a day of a month\n\
       : not three strides in whole minutes, as 180,30,360";

// What is wrong with a word of the command line.
pub fn write_wrong(to: &impl Print, wrong: Wrong) -> io::Result<()> {
    to.write_all(phrases::words_of(&WRONG, wrong))
}

// Why the system refused a file: the library's words, without the error's number.
pub fn write_error(to: &impl Print, error: io::Error) -> io::Result<()> {
    let mut text = [0u8; 320];
    let mut room: &mut [u8] = &mut text;
    write!(room, "{error}")?;
    to.write_all(phrases::without_number(phrases::without_zeros(&text)))
}
