//! Columns of a row, as text: those beside each other that say the same are drawn as one.
ghost use Rattle.std.specs.Prelude.{◌≡◌, ◌+◌, ◌*◌, ◌++◌, ◌<◌, ◌≤◌, codes, decimal, length};
ghost use Rattle.journal_chart.specs.Pages.{cell_room};
ghost use Rattle.journal_chart.specs.Picture.{area_text, bar_of, bar_text, bars_text, cell_text, entries_text, figure_at, foot_text, ground_text, limits_cell, limits_title, mark_text, marks_text, place_text, placed_limits, placed_text, range_text, rise_of, row_goes_on, row_says_next, shapes_text, stands_at, title_text};

use crate::cell::cell_at;
use crate::page::Page;
use crate::row::Row;
use crate::span::Span;

/// What a row says in a column.
#[derive(Clone, Copy)]
pub(crate) struct Figure {
    pub(crate) level: Span,
    pub(crate) request: Span,
    pub(crate) allot: Span,
    pub(crate) active: Span,
    pub(crate) recall: Span,
    pub(crate) hire: Span,
}

/// Columns beside each other that say the same, by the places of the first and of the last.
#[derive(Clone, Copy)]
pub(crate) struct Run {
    pub(crate) first: u32,
    pub(crate) last: u32,
}

/// The first and the last entry of columns beside each other.
#[derive(Clone, Copy)]
pub(crate) struct Entries {
    pub(crate) first: u64,
    pub(crate) last: u64,
}

/// How far below the top of a row a bar begins, and how high it is.
#[derive(Clone, Copy)]
struct Bar {
    y: u64,
    height: u64,
}

impl Row {
    /// What the row says in a column, where its arena lived.
    pub(crate) fn figure(&self, place: usize) -> Option<Figure>
        ensures { result ≡ figure_at self.now place }
    {
        let cell = cell_at(self.cells(), place);
        Some(Figure {
            level: cell.level.span()?,
            request: cell.request.span()?,
            allot: cell.allot.span()?,
            active: cell.active.span()?,
            recall: cell.recall.span()?,
            hire: cell.hire.span()?,
        })
    }

    /// Whether the row says in a column what it says in the next.
    fn says_next(&self, place: u32) -> bool
        ensures { result ≡ row_says_next self.now place }
    {
        let cells = self.cells();
        let (place, next) = (place as usize, place as usize + 1);
        // Both are there nearly always, and are then compared where they stand.
        if next < cells.len() {
            return cells[place].is_same(cells[next]);
        }
        cell_at(cells, place).is_same(cell_at(cells, next))
    }

    /// Whether a column of so many is drawn as one with the next, since the row says the same there.
    pub(crate) fn goes_on(&self, filled: u32, place: u32) -> bool
        requires { place < filled }
        ensures { result ≡ row_goes_on filled self.now place }
    {
        place + 1 < filled && self.says_next(place)
    }
}

/// This is the least or the greatest level at which an arena stood in a column.
pub(crate) fn stands_at(level: u32, column: Option<Span>) -> bool
    ensures { result ≡ stands_at level column }
{
    match column {
        Some(span) => span.least == level || span.most == level,
        None => false,
    }
}

/// How high a number stands, where the greatest of the row stands at 28.
fn rise(scale: u64, number: u32) -> u64
    requires { 0 < scale }
    ensures exact { result ≡ rise_of scale number }
    ensures high { result ≤ 28 }
{
    (u64::from(number) * 28 / scale).min(28)
}

/// A bar from the least to the most, never thinner than 2.
fn bar_of(scale: u64, span: Span) -> Bar
    requires { 0 < scale }
    ensures { result ≡ bar_of scale span }
{
    let (low, high) = (rise(scale, span.least), rise(scale, span.most));
    Bar {
        y: 28 - high,
        height: high.saturating_sub(low) + 2,
    }
}

/// Writes a digit.
#[inline(always)]
fn write_digit(page: &mut Page, digit: u64)
    requires digit { digit < 10 }
    requires room { 1 ≤ page.old.room }
    ensures text { page.new.text ≡ page.old.text ++ decimal digit }
    ensures room { page.old.room ≤ page.new.room + 1 }
    ensures size { page.new.size ≡ page.old.size }
{
    page.put_byte(b'0' + digit as u8);
}

/// Writes a number of at most two digits.
#[inline]
fn write_tens(page: &mut Page, number: u64)
    requires small { number < 100 }
    requires room { length (decimal number) ≤ page.old.room }
    ensures text { page.new.text ≡ page.old.text ++ decimal number }
    ensures room { page.old.room ≤ page.new.room + length (decimal number) }
    ensures size { page.new.size ≡ page.old.size }
{
    if number < 10 {
        write_digit(page, number);
        return;
    }
    write_digit(page, number / 10);
    write_digit(page, number % 10);
}

/// Writes a number. Nearly all in a picture have at most two digits.
#[inline]
pub(crate) fn write_number(page: &mut Page, number: u64)
    requires room { 20 ≤ page.old.room }
    ensures text { page.new.text ≡ page.old.text ++ decimal number }
    ensures room { page.old.room ≤ page.new.room + 20 }
    ensures size { page.new.size ≡ page.old.size }
{
    if number < 100 {
        write_tens(page, number);
        return;
    }
    write_long(page, number);
}

/// Writes a number of three digits or more.
// Digit by digit, since a formatter makes room for a buffer, and writes through it. Apart, since each shorter number would else call itself.
#[inline(never)]
fn write_long(page: &mut Page, number: u64)
    requires long { 100 ≤ number }
    requires room { length (decimal number) ≤ page.old.room }
    ensures text { page.new.text ≡ page.old.text ++ decimal number }
    ensures room { page.old.room ≤ page.new.room + length (decimal number) }
    ensures size { page.new.size ≡ page.old.size }
{
    let front = number / 10;
    if front < 100 {
        write_tens(page, front);
    } else {
        write_long(page, front);
    }
    write_digit(page, number % 10);
}

/// Writes the entries of columns.
fn write_entries(page: &mut Page, entries: Entries)
    requires room { 52 ≤ page.old.room }
    ensures text { page.new.text ≡ page.old.text ++ entries_text entries }
    ensures room { page.old.room ≤ page.new.room + 52 }
    ensures size { page.new.size ≡ page.old.size }
{
    if entries.first == entries.last {
        page.put("entry ");
        write_number(page, entries.first);
        return;
    }
    page.put("entries ");
    write_number(page, entries.first);
    page.put(" to ");
    write_number(page, entries.last);
}

/// Writes a number, or the least and the most of several, behind its name.
// Always in its callers, as what writes a bar is, so that a name of known length is put by a few moves, and not by a call.
#[inline(always)]
fn write_range(page: &mut Page, name: &str, range: Span)
    requires room { length name.now + 44 ≤ page.old.room }
    ensures text { page.new.text ≡ page.old.text ++ (name.now ++ range_text range) }
    ensures room { page.old.room ≤ page.new.room + length name.now + 44 }
    ensures size { page.new.size ≡ page.old.size }
{
    page.put(name);
    write_number(page, u64::from(range.least));
    if range.least == range.most {
        return;
    }
    page.put(" to ");
    write_number(page, u64::from(range.most));
}

/// Writes a bar behind what closes the path before it and begins its own. What is written behind it closes its own.
// All that stands between two numbers is one text, since each that is put asks for its room: a picture has four or five bars a cell.
#[inline(always)]
fn write_bar(page: &mut Page, head: &str, bar: Bar)
    requires room { length head.now + 41 ≤ page.old.room }
    ensures text { page.new.text ≡ page.old.text ++ (head.now ++ bar_text bar) }
    ensures room { page.old.room ≤ page.new.room + length head.now + 41 }
    ensures size { page.new.size ≡ page.old.size }
{
    page.put(head);
    write_number(page, bar.y);
    page.put_byte(b'v');
    write_number(page, bar.height);
}

/// Writes the bar of numbers in the same way.
#[inline(always)]
fn write_span(page: &mut Page, head: &str, scale: u64, span: Span)
    requires high { 0 < scale }
    requires room { length head.now + 41 ≤ page.old.room }
    ensures text { page.new.text ≡ page.old.text ++ (head.now ++ bar_text (bar_of scale span)) }
    ensures room { page.old.room ≤ page.new.room + length head.now + 41 }
    ensures size { page.new.size ≡ page.old.size }
{
    write_bar(page, head, bar_of(scale, span));
}

/// Writes what a pointer over columns shows, between what begins and what ends that.
fn write_title(page: &mut Page, entries: Entries, arena: u32, figure: Figure)
    requires room { 295 ≤ page.old.room }
    ensures text { page.new.text ≡ page.old.text ++ title_text entries arena figure }
    ensures room { page.old.room ≤ page.new.room + 295 }
    ensures size { page.new.size ≡ page.old.size }
{
    write_entries(page, entries);
    page.put(": arena ");
    write_number(page, u64::from(arena));
    write_range(page, ", level ", figure.level);
    write_range(page, ", request ", figure.request);
    write_range(page, ", allotment ", figure.allot);
    write_range(page, ", active ", figure.active);
}

/// Writes the end of what a pointer shows, and the ground.
fn write_ground(page: &mut Page, level: Span)
    requires room { 34 ≤ page.old.room }
    ensures text { page.new.text ≡ page.old.text ++ ground_text level }
    ensures room { page.old.room ≤ page.new.room + 34 }
    ensures size { page.new.size ≡ page.old.size }
{
    if level.least == level.most {
        page.put("</title><path class=\"h\" d=\"M4 0v36");
        return;
    }
    page.put("</title><path class=\"v\" d=\"M4 0v36");
}

/// Writes an area from the foot of the row to a number.
#[inline(always)]
fn write_foot(page: &mut Page, head: &str, scale: u64, number: u32)
    requires high { 0 < scale }
    requires room { length head.now + 41 ≤ page.old.room }
    ensures text { page.new.text ≡ page.old.text ++ (head.now ++ foot_text scale number) }
    ensures room { page.old.room ≤ page.new.room + length head.now + 41 }
    ensures size { page.new.size ≡ page.old.size }
{
    let range = Span {
        least: 0,
        most: number,
    };
    write_span(page, head, scale, range);
}

/// Writes the allotment as an area.
fn write_area(page: &mut Page, scale: u64, allot: Span)
    requires high { 0 < scale }
    requires room { 132 ≤ page.old.room }
    ensures text { page.new.text ≡ page.old.text ++ area_text scale allot }
    ensures room { page.old.room ≤ page.new.room + 132 }
    ensures size { page.new.size ≡ page.old.size }
{
    if allot.least == allot.most {
        write_foot(page, "\"/><path class=\"l\" d=\"M4 ", scale, allot.least);
        return;
    }
    write_foot(page, "\"/><path class=\"m\" d=\"M4 ", scale, allot.most);
    write_foot(page, "\"/><path class=\"l\" d=\"M4 ", scale, allot.least);
}

/// Writes the request and the active workers as bars.
fn write_bars(page: &mut Page, scale: u64, request: Span, active: Span)
    requires high { 0 < scale }
    requires room { 132 ≤ page.old.room }
    ensures text { page.new.text ≡ page.old.text ++ bars_text scale request active }
    ensures room { page.old.room ≤ page.new.room + 132 }
    ensures size { page.new.size ≡ page.old.size }
{
    write_span(page, "\"/><path class=\"r\" d=\"M4 ", scale, request);
    write_span(page, "\"/><path class=\"a\" d=\"M4 ", scale, active);
}

/// Writes a mark at a height, where there are some.
#[inline(always)]
fn write_mark(page: &mut Page, head: &str, y: u64, some: u32)
    requires room { length head.now + 41 ≤ page.old.room }
    ensures text { page.new.text ≡ page.old.text ++ mark_text head.now y some }
    ensures room { page.old.room ≤ page.new.room + length head.now + 41 }
    ensures size { page.new.size ≡ page.old.size }
{
    if some == 0 {
        return;
    }
    let height = u64::from(some.min(2));
    write_bar(page, head, Bar { y, height });
}

/// Writes the marks of recalls and of hires.
fn write_marks(page: &mut Page, recall: u32, hire: u32)
    requires room { 132 ≤ page.old.room }
    ensures text { page.new.text ≡ page.old.text ++ marks_text recall hire }
    ensures room { page.old.room ≤ page.new.room + 132 }
    ensures size { page.new.size ≡ page.old.size }
{
    write_mark(page, "\"/><path class=\"k\" d=\"M4 ", 31, recall);
    write_mark(page, "\"/><path class=\"n\" d=\"M4 ", 34, hire);
}

/// Writes the ground, the area of the allotment, the bars, and the marks.
fn write_shapes(page: &mut Page, scale: u64, figure: Figure)
    requires high { 0 < scale }
    requires room { 430 ≤ page.old.room }
    ensures text { page.new.text ≡ page.old.text ++ shapes_text scale figure }
    ensures room { page.old.room ≤ page.new.room + 430 }
    ensures size { page.new.size ≡ page.old.size }
{
    write_ground(page, figure.level);
    write_area(page, scale, figure.allot);
    write_bars(page, scale, figure.request, figure.active);
    write_marks(page, figure.recall.most, figure.hire.most);
}

/// Writes columns of an arena at a level, where it is drawn there.
pub(crate) fn write_cell(
    page: &mut Page,
    level: u32,
    arena: u32,
    scale: u64,
    entries: Entries,
    run: Run,
    figure: Option<Figure>,
)
    requires high { 0 < scale }
    requires some { run.first ≤ run.last }
    requires room { cell_room ≤ page.old.room }
    ensures text { page.new.text ≡ page.old.text ++ cell_text level arena scale entries run figure }
    ensures room { page.old.room ≤ page.new.room + cell_room }
    ensures size { page.new.size ≡ page.old.size }
{
    let Some(figure) = figure else {
        return;
    };
    if !stands_at(level, Some(figure.level)) {
        return;
    }
    write_placed(page, arena, scale, entries, run, figure);
}

/// Writes where columns stand, each 8 wide, and what ends that.
fn write_place(page: &mut Page, run: Run, end: &str)
    requires some { run.first ≤ run.last }
    requires room { 68 + length end.now ≤ page.old.room }
    ensures text { page.new.text ≡ page.old.text ++ place_text run end.now }
    ensures room { page.old.room ≤ page.new.room + 68 + length end.now }
    ensures size { page.new.size ≡ page.old.size }
{
    page.put("<g transform=\"matrix(");
    write_number(page, u64::from(run.last - run.first) + 1);
    page.put(" 0 0 1 ");
    write_number(page, 180 + 8 * u64::from(run.first));
    page.put(end);
}

/// Writes columns at their place.
fn write_placed(page: &mut Page, arena: u32, scale: u64, entries: Entries, run: Run, figure: Figure)
    requires high { 0 < scale }
    requires some { run.first ≤ run.last }
    requires room { cell_room ≤ page.old.room }
    ensures text { page.new.text ≡ page.old.text ++ placed_text arena scale entries run figure }
    ensures room { page.old.room ≤ page.new.room + cell_room }
    ensures size { page.new.size ≡ page.old.size }
{
    write_place(page, run, " 0)\"><title>");
    write_title(page, entries, arena, figure);
    write_shapes(page, scale, figure);
    page.put("\"/></g>\n");
}

/// Writes columns of the limits.
pub(crate) fn write_limits_cell(
    page: &mut Page,
    scale: u64,
    entries: Entries,
    run: Run,
    limit: Option<Span>,
    effective: Option<Span>,
)
    requires high { 0 < scale }
    requires some { run.first ≤ run.last }
    requires room { cell_room ≤ page.old.room }
    ensures text { page.new.text ≡ page.old.text ++ limits_cell scale entries run limit effective }
    ensures room { page.old.room ≤ page.new.room + cell_room }
    ensures size { page.new.size ≡ page.old.size }
{
    let Some(limit) = limit else {
        return;
    };
    let Some(effective) = effective else {
        return;
    };
    write_placed_limits(page, scale, entries, run, limit, effective);
}

/// Writes what a pointer over columns of the limits shows, and the ground.
fn write_limits_title(page: &mut Page, entries: Entries, limit: Span, effective: Span)
    requires room { 201 ≤ page.old.room }
    ensures text { page.new.text ≡ page.old.text ++ limits_title entries limit effective }
    ensures room { page.old.room ≤ page.new.room + 201 }
    ensures size { page.new.size ≡ page.old.size }
{
    write_entries(page, entries);
    write_range(page, ": limit ", limit);
    write_range(page, ", effective limit ", effective);
    page.put("</title><path class=\"h\" d=\"M4 0v36");
}

/// Writes columns of the limits at their place.
fn write_placed_limits(
    page: &mut Page,
    scale: u64,
    entries: Entries,
    run: Run,
    limit: Span,
    effective: Span,
)
    requires high { 0 < scale }
    requires some { run.first ≤ run.last }
    requires room { cell_room ≤ page.old.room }
    ensures text { page.new.text ≡ page.old.text ++ placed_limits scale entries run limit effective }
    ensures room { page.old.room ≤ page.new.room + cell_room }
    ensures size { page.new.size ≡ page.old.size }
{
    write_place(page, run, " 60)\"><title>");
    write_limits_title(page, entries, limit, effective);
    write_bars(page, scale, limit, effective);
    page.put("\"/></g>\n");
}
