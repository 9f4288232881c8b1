// Heights for other programs.
ghost use Rattle.clock.specs.View.{Made};

use crate::View;
use calls::reasons::Reason;
use digits::dates;
use limits::MINUTES;
use messages::matters;
use output::pages::Page;
use page::shown::Series;
use refusals::Refusal;
use sheets::csv;
use std::io;

// A place for each minute of the longest month, and one more, so that a series that is as long as that is refused by the clock.
const PLACES: usize = MINUTES + 2;

// So many heights of a month from a minute on, a step of minutes apart.
#[derive(Clone, Copy)]
pub struct Span {
    pub start: u32,
    pub step: u32,
    pub count: u32,
}

// Says that the clock refused a series of so many places, by the question that turned it down.
fn say_series(
    rt: HostRuntime,
    view: &View,
    span: Span,
    places: usize,
    refusal: Refusal,
) -> io::Result<()> {
    let month = view.month();
    match matters::series_matter(refusal, month, span.start, span.step, places) {
        None => messages::refused_number(rt, b"step", span.step as u64, refusal),
        Some(Reason::Start) => view.say_day(rt, refusal),
        Some(Reason::Step) => messages::refused_step(rt, span.step, refusal),
        Some(Reason::End) => messages::refused_count(rt, month, span.count, refusal),
    }
}

// So many heights of the month that the clock has prepared, as many as there is room for.
fn spanned(rt: HostRuntime, view: &View, span: Span) -> io::Result<()>
    requires { Made view.now.clock }
{
    let mut places = [0i64; PLACES];
    let n = (span.count as usize).min(PLACES);
    let heights = &mut places[..n];
    if let Err(refused) = clock::series(view.clock, span.start, span.step, heights) {
        return say_series(rt, view, span, n, refused.refusal);
    }
    let series = Series {
        start: span.start,
        step: span.step,
        heights,
    };
    let mut page = Page::new();
    csv::put_heights(&rt, &mut page, view.face, view.date, series)?;
    page.flush(&rt)
}

// series YEAR MONTH DAY HH:MM STEP COUNT: so many heights a step apart, from a minute of the day on, at which the span starts.
pub fn series(rt: HostRuntime, view: &View, span: Span) -> io::Result<()>
    requires { Made view.now.clock }
{
    let start = dates::minute_of_month(view.date.day, span.start);
    spanned(rt, view, Span { start, ..span })
}

// How many heights a step apart the month of a view has, its last minute among them; 1 for a step that the clock refuses.
fn month_count(view: &View, step: u32) -> u32 {
    let last = calendar::month_minutes(view.date.year, view.date.month);
    match last.checked_div(step) {
        Some(steps) if steps <= MINUTES as u32 => steps + 1,
        _ => 1,
    }
}

// heights YEAR MONTH STEP: the heights of a whole month, a step apart.
pub fn heights(rt: HostRuntime, view: &View, step: u32) -> io::Result<()>
    requires { Made view.now.clock }
{
    let count = month_count(view, step);
    spanned(
        rt,
        view,
        Span {
            start: 0,
            step,
            count,
        },
    )
}
