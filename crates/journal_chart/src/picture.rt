//! The picture of a chart, as the text of an SVG.
//!
//! It goes out part by part: what stands before the rows, each row, and what stands behind them. Each is written on the same page first, which
//! has room for any of them and is all the memory that a picture takes: a page that was written on costs less than a new one, of which the
//! system has to find each 4 KiB when it is first touched.
ghost use Rattle.std.specs.Prelude.{◌≡◌, ◌≢◌, ◌+◌, ◌*◌, ◌++◌, ◌<◌, ◌≤◌, ◌^◌, false, true, length, IfErr, IfOk, OnErr, OnOk};
ghost use Rattle.std.specs.List.{count_by};
ghost use Rattle.std.specs.Io.KnownBytes.{Appends};
ghost use Rattle.byte_devices.specs.Devices.{WritesFront};
ghost use Rattle.byte_devices.specs.declared.out_fault.OutFault.{OutFault};
ghost use Rattle.journal_chart.specs.Pages.{cell_room, cells_room, part_room};
ghost use Rattle.journal_chart.specs.Picture.{axis_name, axis_text, box_text, columns_text, filled, head_text, is_at, legend_text, levels_end, levels_text, limits_columns, limits_go_on, limits_name, limits_run, limits_scale, limits_text, name_text, picture_text, row_text, rows_end, rows_text, run_text, sheet_text, size_text, style_text, tick_text, ticks_text};

use crate::chart::Chart;
use crate::figure::{Run, write_cell, write_limits_cell, write_number};
use crate::lines::Lines;
use crate::page::Page;
use crate::row::Row;
use crate::sheet::{Sheet, greatest, highest, is_at, scale_of};
use byte_devices::{OutFault, Sink, WriteFault, put_all};
use std::alloc::Global;

/// What columns that are drawn as one take at most.
const CELL_ROOM: usize = 832;

/// Writes columns of a row at a level, in which it says the same.
fn write_run(page: &mut Page, sheet: Sheet, level: u32, scale: u64, row: &Row, run: Run)
    requires wide { 0 < sheet.width }
    requires countable { sheet.before + sheet.moments < 2 ^ 64 }
    requires some { run.first ≤ run.last }
    requires inside { run.last < filled sheet }
    requires high { 0 < scale }
    requires room { cell_room ≤ page.old.room }
    ensures text { page.new.text ≡ page.old.text ++ run_text sheet level scale row.now run }
    ensures room { page.old.room ≤ page.new.room + cell_room }
    ensures size { page.new.size ≡ page.old.size }
{
    let figure = row.figure(run.last as usize);
    let entries = sheet.entries(run);
    write_cell(page, level, row.arena().get(), scale, entries, run, figure);
}

/// Writes the columns of a row at a level.
fn write_columns(page: &mut Page, sheet: Sheet, level: u32, scale: u64, row: &Row)
    requires wide { 0 < sheet.width }
    requires countable { sheet.before + sheet.moments < 2 ^ 64 }
    requires high { 0 < scale }
    requires room { cells_room sheet ≤ page.old.room }
    ensures text { page.new.text ≡ page.old.text ++ columns_text sheet level scale row.now }
    ensures room { page.old.room ≤ page.new.room + cells_room sheet }
    ensures size { page.new.size ≡ page.old.size }
{
    let filled = sheet.filled();
    let mut first = 0;
    for place in 0..filled {
        if row.goes_on(filled, place) {
            continue;
        }
        let run = Run { first, last: place };
        write_run(page, sheet, level, scale, row, run);
        first = place + 1;
    }
}

/// Writes a row's name and what stands at its top.
fn write_name(page: &mut Page, level: u32, scale: u64, y: u64, row: &Row)
    requires room { 192 ≤ page.old.room }
    ensures text { page.new.text ≡ page.old.text ++ name_text level scale y row.now }
    ensures room { page.old.room ≤ page.new.room + 192 }
    ensures size { page.new.size ≡ page.old.size }
{
    page.put("<g transform=\"translate(0 ");
    write_number(page, y);
    page.put(")\"><text x=\"8\" y=\"24\">level ");
    write_number(page, u64::from(level));
    page.put(", arena ");
    write_number(page, u64::from(row.arena().get()));
    page.put("</text><text x=\"172\" y=\"10\" class=\"e\">");
    write_number(page, scale);
    page.put("</text>\n");
}

/// Writes a row at a level.
fn write_row(page: &mut Page, sheet: Sheet, level: u32, y: u64, row: &Row)
    requires wide { 0 < sheet.width }
    requires countable { sheet.before + sheet.moments < 2 ^ 64 }
    requires room { cells_room sheet + 200 ≤ page.old.room }
    ensures text { page.new.text ≡ page.old.text ++ row_text sheet level y row.now }
    ensures room { page.old.room ≤ page.new.room + cells_room sheet + 200 }
    ensures size { page.new.size ≡ page.old.size }
{
    let scale = scale_of(row);
    write_name(page, level, scale, y, row);
    write_columns(page, sheet, level, scale, row);
    page.put("</g>\n");
}

/// Writes the rows at a level, one below the other: where they end. Each goes out as soon as it stands on the page.
fn write_rows<W: Sink>(
    page: &mut Page,
    sheet: Sheet,
    level: u32,
    y: u64,
    rows: &[Row],
    sink: &mut W,
) -> Result<u64, WriteFault>
    requires wide { 0 < sheet.width }
    requires countable { sheet.before + sheet.moments < 2 ^ 64 }
    requires few { length rows.now < 2 ^ 32 }
    requires low { y < 2 ^ 48 }
    requires size { part_room sheet ≤ page.old.size }
    requires sink_working { W.failed sink.old ≡ false }
    ensures written { OnOk result (Appends (W.taken sink.old) (W.taken sink.new) (rows_text sheet level y rows.now)) }
    ensures working { OnOk result (W.failed sink.new ≡ false) }
    ensures prefix { OnErr result (WritesFront (W.taken sink.old) (W.taken sink.new) (rows_text sheet level y rows.now)) }
    ensures cause { OnErr result (W.failed sink.new ≡ true) }
    ensures end { IfOk result (λ end. end ≡ rows_end level y rows.now) }
    ensures low { IfOk result (λ end. end ≤ y + 40 * 2 ^ 32) }
    ensures size { page.new.size ≡ page.old.size }
{
    let mut below = y;
    for row in rows {
        if !is_at(row, level) {
            continue;
        }
        page.clear();
        write_row(page, sheet, level, below, row);
        put_all(sink, page.text())?;
        below += 40;
    }
    Ok(below)
}

/// How many rows there are at a level.
fn count_at(rows: &[Row], level: u32) -> usize
    ensures exact { result ≡ count_by (is_at level) rows.now }
    ensures most { result ≤ length rows.now }
{
    rows.iter().filter(|row| is_at(row, level)).count()
}

/// Where the rows at a level end.
fn rows_end(rows: &[Row], level: u32, y: u64) -> u64
    requires few { length rows.now < 2 ^ 32 }
    requires low { y < 2 ^ 48 }
    ensures exact { result ≡ rows_end level y rows.now }
    ensures low { result ≤ y + 40 * 2 ^ 32 }
{
    y + 40 * count_at(rows, level) as u64
}

/// Where the rows of all levels end.
fn levels_end(rows: &[Row]) -> u64
    requires few { length rows.now < 2 ^ 32 }
    ensures exact { result ≡ levels_end rows.now 8 }
    ensures low { result < 2 ^ 48 }
{
    let top = highest(rows);
    let mut y = 120;
    for level in 0..8 {
        if level >= top {
            continue;
        }
        y = rows_end(rows, level + 1, y);
    }
    y
}

/// Writes the rows of all levels, one level below the other.
fn write_levels<W: Sink>(
    page: &mut Page,
    sheet: Sheet,
    rows: &[Row],
    sink: &mut W,
) -> Result<(), WriteFault>
    requires wide { 0 < sheet.width }
    requires countable { sheet.before + sheet.moments < 2 ^ 64 }
    requires few { length rows.now < 2 ^ 32 }
    requires size { part_room sheet ≤ page.old.size }
    requires sink_working { W.failed sink.old ≡ false }
    ensures written { OnOk result (Appends (W.taken sink.old) (W.taken sink.new) (levels_text sheet rows.now 8)) }
    ensures working { OnOk result (W.failed sink.new ≡ false) }
    ensures prefix { OnErr result (WritesFront (W.taken sink.old) (W.taken sink.new) (levels_text sheet rows.now 8)) }
    ensures cause { OnErr result (W.failed sink.new ≡ true) }
    ensures size { page.new.size ≡ page.old.size }
{
    let top = highest(rows);
    let mut y = 120;
    for level in 0..8 {
        if level >= top {
            continue;
        }
        y = write_rows(page, sheet, level + 1, y, rows, sink)?;
    }
    Ok(())
}

/// Writes columns of the limits, in which they are the same.
fn write_limits_run(page: &mut Page, sheet: Sheet, scale: u64, lines: &Lines, run: Run)
    requires wide { 0 < sheet.width }
    requires countable { sheet.before + sheet.moments < 2 ^ 64 }
    requires some { run.first ≤ run.last }
    requires inside { run.last < filled sheet }
    requires high { 0 < scale }
    requires room { cell_room ≤ page.old.room }
    ensures text { page.new.text ≡ page.old.text ++ limits_run sheet scale lines.now run }
    ensures room { page.old.room ≤ page.new.room + cell_room }
    ensures size { page.new.size ≡ page.old.size }
{
    let limit = lines.limit().at(run.last as usize);
    let effective = lines.effective().at(run.last as usize);
    write_limits_cell(page, scale, sheet.entries(run), run, limit, effective);
}

/// Whether a column of so many is drawn as one with the next, since the limits are the same there.
fn limits_go_on(filled: u32, lines: &Lines, place: u32) -> bool
    requires { place < filled }
    ensures { result ≡ limits_go_on filled lines.now place }
{
    place + 1 < filled && lines.limit().says_next(place) && lines.effective().says_next(place)
}

/// Writes the columns of the limits.
fn write_limits_columns(page: &mut Page, sheet: Sheet, scale: u64, lines: &Lines)
    requires wide { 0 < sheet.width }
    requires countable { sheet.before + sheet.moments < 2 ^ 64 }
    requires high { 0 < scale }
    requires room { cells_room sheet ≤ page.old.room }
    ensures text { page.new.text ≡ page.old.text ++ limits_columns sheet scale lines.now }
    ensures room { page.old.room ≤ page.new.room + cells_room sheet }
    ensures size { page.new.size ≡ page.old.size }
{
    let filled = sheet.filled();
    let mut first = 0;
    for place in 0..filled {
        if limits_go_on(filled, lines, place) {
            continue;
        }
        let run = Run { first, last: place };
        write_limits_run(page, sheet, scale, lines, run);
        first = place + 1;
    }
}

/// What stands at the top of the limits.
fn limits_scale(lines: &Lines) -> u64
    ensures exact { result ≡ limits_scale lines.now }
    ensures some { 0 < result }
{
    let limit = greatest(lines.limit().columns());
    let effective = greatest(lines.effective().columns());
    u64::from(limit.max(effective).max(1))
}

/// Writes the name of the limits and what stands at their top.
fn write_limits_name(page: &mut Page, scale: u64)
    requires room { 90 ≤ page.old.room }
    ensures text { page.new.text ≡ page.old.text ++ limits_name scale }
    ensures room { page.old.room ≤ page.new.room + 90 }
    ensures size { page.new.size ≡ page.old.size }
{
    page.put("<text x=\"8\" y=\"84\">limit</text><text x=\"172\" y=\"70\" class=\"e\">");
    write_number(page, scale);
    page.put("</text>\n");
}

/// Writes the limits.
fn write_limits(page: &mut Page, sheet: Sheet, lines: &Lines)
    requires wide { 0 < sheet.width }
    requires countable { sheet.before + sheet.moments < 2 ^ 64 }
    requires room { cells_room sheet + 90 ≤ page.old.room }
    ensures text { page.new.text ≡ page.old.text ++ limits_text sheet lines.now }
    ensures room { page.old.room ≤ page.new.room + cells_room sheet + 90 }
    ensures size { page.new.size ≡ page.old.size }
{
    let scale = limits_scale(lines);
    write_limits_name(page, scale);
    write_limits_columns(page, sheet, scale, lines);
}

/// Writes the first entry of every sixteenth column.
fn write_tick(page: &mut Page, sheet: Sheet, y: u64, place: u32)
    requires wide { 0 < sheet.width }
    requires countable { sheet.before + sheet.moments < 2 ^ 64 }
    requires inside { place < filled sheet }
    requires room { 84 ≤ page.old.room }
    ensures text { page.new.text ≡ page.old.text ++ tick_text sheet y place }
    ensures room { page.old.room ≤ page.new.room + 84 }
    ensures size { page.new.size ≡ page.old.size }
{
    if place % 16 != 0 {
        return;
    }
    let x = 180 + 8 * u64::from(place);
    let first = sheet.first_entry(place);
    page.put("<text x=\"");
    write_number(page, x);
    page.put("\" y=\"");
    write_number(page, y);
    page.put("\">");
    write_number(page, first);
    page.put("</text>\n");
}

/// Writes the first entries of all columns that tell it.
fn write_ticks(page: &mut Page, sheet: Sheet, y: u64)
    requires wide { 0 < sheet.width }
    requires countable { sheet.before + sheet.moments < 2 ^ 64 }
    requires room { cells_room sheet ≤ page.old.room }
    ensures text { page.new.text ≡ page.old.text ++ ticks_text sheet y }
    ensures room { page.old.room ≤ page.new.room + cells_room sheet }
    ensures size { page.new.size ≡ page.old.size }
{
    for place in 0..sheet.filled() {
        write_tick(page, sheet, y, place);
    }
}

/// Writes the name of the entries.
fn write_axis_name(page: &mut Page, y: u64)
    requires room { 60 ≤ page.old.room }
    ensures text { page.new.text ≡ page.old.text ++ axis_name y }
    ensures room { page.old.room ≤ page.new.room + 60 }
    ensures size { page.new.size ≡ page.old.size }
{
    page.put("<text x=\"8\" y=\"");
    write_number(page, y);
    page.put("\">entry</text>\n");
}

/// Writes the entries below the rows.
fn write_axis(page: &mut Page, sheet: Sheet, y: u64)
    requires wide { 0 < sheet.width }
    requires countable { sheet.before + sheet.moments < 2 ^ 64 }
    requires room { cells_room sheet + 60 ≤ page.old.room }
    ensures text { page.new.text ≡ page.old.text ++ axis_text sheet y }
    ensures room { page.old.room ≤ page.new.room + cells_room sheet + 60 }
    ensures size { page.new.size ≡ page.old.size }
{
    write_axis_name(page, y);
    write_ticks(page, sheet, y);
}

/// Writes how wide and how high the picture is.
fn write_size(page: &mut Page, wide: u64, high: u64)
    requires room { 100 ≤ page.old.room }
    ensures text { page.new.text ≡ page.old.text ++ size_text wide high }
    ensures room { page.old.room ≤ page.new.room + 100 }
    ensures size { page.new.size ≡ page.old.size }
{
    page.put("<svg xmlns=\"http://www.w3.org/2000/svg\" width=\"");
    write_number(page, wide);
    page.put("\" height=\"");
    write_number(page, high);
    page.put("\"");
}

/// Writes the box that is seen, which is all of the picture.
fn write_box(page: &mut Page, wide: u64, high: u64)
    requires room { 60 ≤ page.old.room }
    ensures text { page.new.text ≡ page.old.text ++ box_text wide high }
    ensures room { page.old.room ≤ page.new.room + 60 }
    ensures size { page.new.size ≡ page.old.size }
{
    page.put(" viewBox=\"0 0 ");
    write_number(page, wide);
    page.put(" ");
    write_number(page, high);
    page.put("\">\n");
}

/// Writes the colours of the classes.
#[tactic(auto, unfolding(crate::specs::Picture::style_text))]
fn write_style(page: &mut Page)
    requires room { 443 ≤ page.old.room }
    ensures text { page.new.text ≡ page.old.text ++ style_text }
    ensures room { page.old.room ≤ page.new.room + 443 }
    ensures size { page.new.size ≡ page.old.size }
{
    page.put(
        "<style>svg{background:#fff;font:12px sans-serif}text{fill:#222}.e{text-anchor:end}rect{fill:currentColor}\
         path{stroke:currentColor;stroke-width:8}.h{color:transparent}.r{color:#222}.v{color:#f6d58f}.m{color:#bfe1f5}\
         .l{color:#56b4e9}.a{color:#d55e00}.k{color:#cc79a7}.n{color:#009e73}@media(prefers-color-scheme:dark){\
         svg{background:#111}text{fill:#ddd}.r{color:#ddd}.v{color:#6b4e10}.m{color:#173f57}.l{color:#2a7fb8}.a{color:#ff9d5c}}</style>\n",
    );
}

/// Writes the legend.
#[tactic(auto, unfolding(crate::specs::Picture::legend_text))]
fn write_legend(page: &mut Page)
    requires room { 692 ≤ page.old.room }
    ensures text { page.new.text ≡ page.old.text ++ legend_text }
    ensures room { page.old.room ≤ page.new.room + 692 }
    ensures size { page.new.size ≡ page.old.size }
{
    page.put(
        "<text x=\"8\" y=\"20\">A market's history</text>\
         <rect class=\"r\" x=\"150\" y=\"14\" width=\"14\" height=\"2\"/>\
         <text x=\"168\" y=\"20\">request, limit</text>\
         <rect class=\"m\" x=\"270\" y=\"9\" width=\"7\" height=\"12\"/>\
         <rect class=\"l\" x=\"277\" y=\"9\" width=\"7\" height=\"12\"/>\
         <text x=\"288\" y=\"20\">allotment, its most and its least</text>\
         <rect class=\"a\" x=\"500\" y=\"14\" width=\"14\" height=\"2\"/>\
         <text x=\"518\" y=\"20\">active, effective limit</text>\
         <rect class=\"k\" x=\"150\" y=\"36\" width=\"14\" height=\"2\"/>\
         <text x=\"168\" y=\"42\">recalls</text>\
         <rect class=\"n\" x=\"270\" y=\"36\" width=\"14\" height=\"2\"/>\
         <text x=\"288\" y=\"42\">hires</text>\
         <rect class=\"v\" x=\"500\" y=\"31\" width=\"14\" height=\"12\"/>\
         <text x=\"518\" y=\"42\">moved between levels</text>\n",
    );
}

/// Writes the size, the colours of the classes, and the legend.
fn write_head(page: &mut Page, wide: u64, high: u64)
    requires room { 1295 ≤ page.old.room }
    ensures text { page.new.text ≡ page.old.text ++ head_text wide high }
    ensures room { page.old.room ≤ page.new.room + 1295 }
    ensures size { page.new.size ≡ page.old.size }
{
    write_size(page, wide, high);
    write_box(page, wide, high);
    write_style(page);
    write_legend(page);
}

/// Writes the picture of some columns and lines, by way of a page.
fn write_sheet<W: Sink>(
    page: &mut Page,
    sheet: Sheet,
    lines: &Lines,
    sink: &mut W,
) -> Result<(), WriteFault>
    requires wide { 0 < sheet.width }
    requires countable { sheet.before + sheet.moments < 2 ^ 64 }
    requires few { length lines.now.rows < 2 ^ 32 }
    requires size { part_room sheet ≤ page.old.size }
    requires sink_working { W.failed sink.old ≡ false }
    ensures written { OnOk result (Appends (W.taken sink.old) (W.taken sink.new) (sheet_text sheet lines.now)) }
    ensures working { OnOk result (W.failed sink.new ≡ false) }
    ensures prefix { OnErr result (WritesFront (W.taken sink.old) (W.taken sink.new) (sheet_text sheet lines.now)) }
    ensures cause { OnErr result (W.failed sink.new ≡ true) }
{
    let rows = lines.rows();
    let end = levels_end(rows);
    page.clear();
    write_head(page, sheet.wide(), end + 32);
    write_limits(page, sheet, lines);
    put_all(sink, page.text())?;
    write_levels(page, sheet, rows, sink)?;
    page.clear();
    write_axis(page, sheet, end + 20);
    page.put("</svg>\n");
    put_all(sink, page.text())
}

/// Writes the picture of a chart, an SVG that stands alone. It has a row for each arena at each level at which it stood (of the levels of one
/// column, the least and the greatest), in which each column tells a pointer its numbers and its entries, and columns beside each other that
/// say the same are drawn as one; `before` entries came before the first moment.
///
/// All memory is taken before the first write: 832 bytes for each column that has moments, and 2 KiB. Where it cannot be had, `Memory` is
/// answered, and nothing is written; a write that fails or takes none is `Write`, and what went out is then a prefix of the picture. It
/// takes a write for each row, and two more.
pub fn write_picture<W: Sink>(
    alloc: Global,
    before: u32,
    chart: &Chart,
    sink: &mut W,
) -> Result<(), OutFault>
    requires few { length chart.now.lines.rows < 2 ^ 32 }
    requires countable { before + chart.now.moments < 2 ^ 64 }
    requires sink_working { W.failed sink.old ≡ false }
    ensures written { OnOk result (Appends (W.taken sink.old) (W.taken sink.new) (picture_text before chart.now)) }
    ensures working { OnOk result (W.failed sink.new ≡ false) }
    ensures prefix { OnErr result (WritesFront (W.taken sink.old) (W.taken sink.new) (picture_text before chart.now)) }
    ensures cause { IfErr result (λ fault. fault ≡ OutFault.Write → W.failed sink.new ≡ true) }
    ensures untouched { IfErr result (λ fault. fault ≢ OutFault.Write → sink.new ≡ sink.old) }
{
    let sheet = Sheet {
        before,
        width: chart.width(),
        moments: chart.moments(),
        columns: chart.columns(),
    };
    let mut page = Page::new(alloc, CELL_ROOM * sheet.filled() as usize + 2_048)?;
    write_sheet(&mut page, sheet, chart.lines(), sink)?;
    Ok(())
}
