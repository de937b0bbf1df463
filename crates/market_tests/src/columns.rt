//! The columns of a chart: that it is made where memory is ample, and values worked out by hand.
ghost use Rattle.std.specs.Prelude.{◌<◌};

use crate::asserts::{holds, same};
use byte_devices::TestSink;
use journal_chart::{Cell, Chart, Column, Line, Row, Span, write_picture};
use market_core::Market;
use market_types::{ArenaId, Cmd, Level, SeatNo};
use std::alloc::Global;
use std::process::Abort;
use std::rt::HostRuntime;

/// A market of base 8, hard limit 64, four seats and three levels.
fn opened(rt: &impl Abort, alloc: Global) -> Market {
    let Ok(market) = Market::new(alloc, 8, 64, 4, 3) else {
        panic!(rt; "no market");
    };
    market
}

/// Arenas 1 and 2 in so many columns.
fn charted(rt: &impl Abort, alloc: Global, columns: u32) -> Chart
    requires { 0 < columns }
{
    let arenas = [ArenaId::new(1), ArenaId::new(2)];
    let Ok(chart) = Chart::new(alloc, columns, &arenas) else {
        panic!(rt; "no chart");
    };
    chart
}

/// Calls of seats, so many times one after the other, each of which a chart then takes.
fn play(
    rt: &impl Abort,
    alloc: Global,
    market: &mut Market,
    chart: &mut Chart,
    calls: &[(u8, Cmd)],
    times: u32,
) {
    for _ in 0..times {
        for (seat, cmd) in calls {
            holds(rt, *seat < market.seats());
            let Ok(reply) = market.apply(alloc, SeatNo::new(*seat), *cmd) else {
                panic!(rt; "no reply");
            };
            holds(rt, chart.moments() < 1_000_000);
            chart.take(market, cmd, &reply);
            drop(reply);
        }
    }
}

/// The least and the most of a column, if it has numbers.
type Due = Option<(u32, u32)>;

/// A column says this.
fn column_says(rt: &impl Abort, column: Column, due: Due) {
    let span = match due {
        Some((least, most)) => Some(Span { least, most }),
        None => None,
    };
    same(rt, column.span(), span);
}

/// The columns of a line say this.
fn says(rt: &impl Abort, line: &Line, due: &[Due]) {
    let columns = line.columns();
    same(rt, columns.len(), due.len());
    for (column, due) in columns.iter().zip(due) {
        column_says(rt, *column, *due);
    }
}

/// A cell says this of its level, of what its arena asked for and was allotted, of its active workers, of recalls and of hires.
fn cell_says(rt: &impl Abort, cell: &Cell, due: &[Due; 6]) {
    column_says(rt, cell.level, due[0]);
    column_says(rt, cell.request, due[1]);
    column_says(rt, cell.allot, due[2]);
    column_says(rt, cell.active, due[3]);
    column_says(rt, cell.recall, due[4]);
    column_says(rt, cell.hire, due[5]);
}

/// The row at an index.
fn row<'a>(rt: &impl Abort, chart: &'a Chart, index: usize) -> &'a Row {
    match chart.lines().rows().get(index) {
        Some(row) => row,
        None => panic!(rt; "no row"),
    }
}

/// What arena 1 was in the course of nine calls, in four columns.
fn shows_nine_calls(rt: &impl Abort, chart: &Chart) {
    same(rt, chart.moments(), 9);
    let limit = [Some((7, 7)), Some((1, 1)), Some((1, 1)), None];
    says(rt, chart.lines().limit(), &limit);
    let cells = row(rt, chart, 0).cells();
    let due = [
        [
            Some((2, 2)),
            Some((0, 3)),
            Some((0, 3)),
            Some((0, 2)),
            Some((0, 0)),
            Some((0, 3)),
        ],
        [
            Some((2, 2)),
            Some((3, 3)),
            Some((0, 1)),
            Some((1, 2)),
            Some((1, 2)),
            Some((0, 0)),
        ],
        [
            Some((1, 1)),
            Some((3, 3)),
            Some((0, 0)),
            Some((1, 1)),
            Some((1, 1)),
            Some((0, 0)),
        ],
        [None; 6],
    ];
    same(rt, cells.len(), due.len());
    for (cell, due) in cells.iter().zip(&due) {
        cell_says(rt, cell, due);
    }
}

/// The picture of these nine calls begins with its size, ends with its entries, and holds these rows and columns.
fn draws_nine_calls(rt: &impl Abort, alloc: Global, chart: &Chart) {
    holds(rt, chart.lines().rows().len() < 3);
    holds(rt, chart.moments() < 1_000_000);
    let Ok(memory) = Vec::with_capacity(alloc, 16_384) else {
        panic!(rt; "no memory");
    };
    let mut sink = TestSink::new(memory);
    same(rt, write_picture(alloc, 0, chart, &mut sink).is_ok(), true);
    let Ok(out) = Vec::from_slice(alloc, sink.taken()) else {
        panic!(rt; "no memory");
    };
    drop(sink);
    let Ok(text) = String::from_utf8(out) else {
        panic!(rt; "no text");
    };
    let text = text.as_str();
    let size = "width=\"660\" height=\"272\" viewBox=\"0 0 660 272\">\n<style>";
    let axis = "<text x=\"8\" y=\"260\">entry</text>\n<text x=\"180\" y=\"260\">1</text>\n</svg>\n";
    holds(rt, text.contains(size));
    holds(rt, text.ends_with(axis));
    let limit = "<g transform=\"matrix(1 0 0 1 180 60)\">\
        <title>entries 1 to 4: limit 7, effective limit ";
    holds(rt, text.contains(limit));
    let both = "<g transform=\"matrix(2 0 0 1 188 60)\">\
        <title>entries 5 to 9: limit 1, effective limit 1</title>\
        <path class=\"h\" d=\"M4 0v36\"/><path class=\"r\" d=\"M4 24v2\"/><path class=\"a\" d=\"M4 24v2\"/></g>\n<g transform=\"translate(0 120)";
    holds(rt, text.contains(both));
    let row = "<g transform=\"translate(0 200)\"><text x=\"8\" y=\"24\">level 2, arena 1</text>\
        <text x=\"172\" y=\"10\" class=\"e\">3</text>\n<g transform=\"matrix(1 0 0 1 180 0)\">";
    holds(rt, text.contains(row));
    let first =
        "<title>entries 1 to 4: arena 1, level 2, request 0 to 3, allotment 0 to 3, active 0 to 2</title>\
        <path class=\"h\" d=\"M4 0v36\"/>\
        <path class=\"m\" d=\"M4 0v30\"/><path class=\"l\" d=\"M4 28v2\"/>\
        <path class=\"r\" d=\"M4 0v30\"/><path class=\"a\" d=\"M4 10v20\"/>\
        <path class=\"n\" d=\"M4 34v2\"/></g>\n";
    holds(rt, text.contains(first));
    let last = "<g transform=\"translate(0 120)\"><text x=\"8\" y=\"24\">level 1, arena 1</text>\
        <text x=\"172\" y=\"10\" class=\"e\">3</text>\n<g transform=\"matrix(1 0 0 1 196 0)\">\
        <title>entry 9: arena 1, level 1, request 3, allotment 0, active 1</title>";
    holds(rt, text.contains(last));
}

#[test]
fn nine_calls_in_four_columns(rt: HostRuntime) {
    let mut market = opened(&rt, rt.alloc());
    let mut chart = charted(&rt, rt.alloc(), 4);
    let (first, second) = (ArenaId::new(1), ArenaId::new(2));
    let (high, normal) = (Level::from_index(0), Level::from_index(1));
    let calls = [
        (0, Cmd::Open(4, 1, normal)),
        (0, Cmd::Request(first, 5, 0)),
        (1, Cmd::Join),
        (2, Cmd::Join),
        (0, Cmd::Control(2)),
        (0, Cmd::Open(8, 0, high)),
        (0, Cmd::Request(second, 1, 0)),
        (1, Cmd::Stay),
        (0, Cmd::Priority(first, high)),
    ];
    play(&rt, rt.alloc(), &mut market, &mut chart, &calls, 1);
    shows_nine_calls(&rt, &chart);
    draws_nine_calls(&rt, rt.alloc(), &chart);
    drop(chart);
    drop(market);
}

/// The arena lived for the first 64 of 215 moments, in columns of 128, and asked for 5 workers in one of them.
fn shows_a_spike(rt: &impl Abort, chart: &Chart) {
    same(rt, chart.moments(), 215);
    let cells = row(rt, chart, 0).cells();
    let due = [(Some((3, 3)), Some((0, 5))), (None, None), (None, None)];
    same(rt, cells.len(), due.len());
    for (cell, (level, request)) in cells.iter().zip(&due) {
        column_says(rt, cell.level, *level);
        column_says(rt, cell.request, *request);
    }
}

#[test]
fn a_spike_of_one_moment_is_kept(rt: HostRuntime) {
    let mut market = opened(&rt, rt.alloc());
    let mut chart = charted(&rt, rt.alloc(), 3);
    let arena = ArenaId::new(1);
    let opening = [(0, Cmd::Open(8, 0, Level::from_index(2)))];
    let still = [(0, Cmd::Limit), (0, Cmd::Show(arena)), (0, Cmd::Lists)];
    let spike = [
        (0, Cmd::Request(arena, 5, 0)),
        (0, Cmd::Request(arena, -5, 0)),
        (0, Cmd::Close(arena)),
        (0, Cmd::Close(arena)),
    ];
    play(&rt, rt.alloc(), &mut market, &mut chart, &opening, 1);
    play(&rt, rt.alloc(), &mut market, &mut chart, &still, 20);
    play(&rt, rt.alloc(), &mut market, &mut chart, &spike, 1);
    play(&rt, rt.alloc(), &mut market, &mut chart, &still, 50);
    shows_a_spike(&rt, &chart);
    drop(chart);
    drop(market);
}
