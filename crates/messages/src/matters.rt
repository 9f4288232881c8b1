// What a refusal is about: a stride, the room for turns, a day that its month lacks, which question of 9 turns a series down, or which day's card has no room for a height.
ghost use Rattle.std.specs.Prelude.{◌≡◌};
ghost use Rattle.messages.specs.Matters.{of_minutes, of_strides, of_room, lacks_day, series_matter, card_day, card_number};

use crate::months::Month;
use calls::reasons;
use calls::reasons::Reason;
use refusals::Refusal;

// Three questions by the same test, each with its own number in specs/Matters.antt: `of_minutes`, `of_strides`, `of_room`.

// Whether a refusal is that of minutes.
pub fn of_minutes(refusal: Refusal) -> bool
    ensures { result ≡ of_minutes refusal }
{
    refusal == Refusal::BadMinutes
}

// Whether a refusal is that of a stride.
pub fn of_strides(refusal: Refusal) -> bool
    ensures { result ≡ of_strides refusal }
{
    refusal == Refusal::BadStride
}

// Whether a refusal is that of more turns than there is room for.
pub fn of_room(refusal: Refusal) -> bool
    ensures { result ≡ of_room refusal }
{
    refusal == Refusal::TooManyTurns
}

// Whether a day is refused because its month lacks it.
#[tactic(auto, unfolding(crate::specs::Matters::lacks_day))]
pub fn lacks_day(refusal: Refusal, month: Month, day: u32) -> bool
    ensures { result ≡ lacks_day refusal month.year month.month day }
{
    of_minutes(refusal) && calendar::month_days(month.year, month.month) < day
}

// The question of 9 that turns down a series of so many heights in a month; none where the refusal is another.
#[tactic(auto, unfolding(crate::specs::Matters::series_matter))]
pub fn series_matter(
    refusal: Refusal,
    month: Month,
    start: u32,
    step: u32,
    places: usize,
) -> Option<Reason>
    ensures { result ≡ series_matter refusal month.year month.month start step places }
{
    if of_minutes(refusal) {
        return reasons::series_reason(
            calendar::month_minutes(month.year, month.month) as u64,
            start as u64,
            step as u64,
            places,
        );
    }
    None
}

// The day of the card at a place of a month's hourly cards, counted from 1.
pub fn card_day(place: usize) -> usize
    ensures { result ≡ card_day place }
{
    place / 2 + place % 2
}

// The number of that card, 1 or 2.
pub fn card_number(place: usize) -> usize
    ensures { result ≡ card_number place }
{
    2 - place % 2
}
