// The elements of a picture in SVG, placed by column and row. Column 0 is the head's; the rows are the levels, from the highest down, then those
// of the keys, of the indexes and of the slots. What cannot be printed is left out.
ghost use Rattle.std.specs.Prelude.{◌+◌, ◌≤◌, ◌<◌};
ghost use Rattle.draw.specs.Places.{Placed};

use std::fmt::Display;

// The width of a box; how far columns are apart, and rows; where the first column begins.
const BOX: u32 = 84;

const STEP: u32 = 128;

pub const ROW: u32 = 28;

const LEFT: u32 = 72;

// Columns 0 to 10, rows 0 to 18.
fn left(column: u32) -> u32
    requires { column ≤ 10 }
    ensures { (72 ≤ result) × (result ≤ 1352) }
{
    LEFT + STEP * column
}

fn middle(row: u32) -> u32
    requires { row ≤ 18 }
    ensures { (14 ≤ result) × (result ≤ 518) }
{
    ROW / 2 + ROW * row
}

// A link from the box in one column to that in another.
pub fn arrow(out: &impl Print, from: u32, to: u32, row: u32)
    requires { Placed from row × Placed to row }
{
    let (x1, x2, y) = (left(from) + BOX, left(to), middle(row));
    let _ = println!(out; r#"<line x1="{x1}" y1="{y}" x2="{x2}" y2="{y}" marker-end="url(#to)"/>"#);
}

// A link that goes on behind the last column.
pub fn leaves(out: &impl Print, from: u32, last: u32, row: u32)
    requires { Placed from row × Placed last row }
{
    let (x1, x2, y) = (left(from) + BOX, left(last) + STEP, middle(row));
    let _ = println!(out;
        r#"<line x1="{x1}" y1="{y}" x2="{x2}" y2="{y}" stroke-dasharray="4 3"/>"#
    );
}

// The distance of a link, above its end.
pub fn distance(out: &impl Print, to: u32, row: u32, far: u32)
    requires { Placed to row }
{
    let (x, y) = (left(to) - 12, middle(row) - 4);
    let _ = println!(out; r#"<text x="{x}" y="{y}" text-anchor="end">{far}</text>"#);
}

// A number, or a word, in the middle of a column.
pub fn label(out: &impl Print, column: u32, row: u32, what: impl Display + Drop)
    requires { Placed column row }
{
    let (x, y) = (left(column) + BOX / 2, middle(row) + 4);
    let _ = println!(out; r#"<text x="{x}" y="{y}">{what}</text>"#);
}

// The box of a node, or of the head: from a row down to that of the keys.
pub fn tower(out: &impl Print, column: u32, top: u32, keys: u32)
    requires { Placed column keys × (top ≤ keys) }
{
    let (x, y) = (left(column), ROW * top + 3);
    let height = ROW * (keys - top) + 22;
    let _ = println!(out; r#"<rect x="{x}" y="{y}" width="{BOX}" height="{height}"/>"#);
}

pub fn head(out: &impl Print, keys: u32)
    requires { keys ≤ 18 }
{
    tower(out, 0, 0, keys);
    label(out, 0, keys, "head");
}

// The name of a row.
pub fn name(out: &impl Print, row: u32, what: impl Display + Drop)
    requires { row ≤ 18 }
{
    let y = middle(row) + 4;
    let _ = println!(out; r#"<text x="8" y="{y}" text-anchor="start">{what}</text>"#);
}

// A line of words at a height.
pub fn words(out: &impl Print, y: u32, what: impl Display + Drop)
    requires { y ≤ 300000 }
{
    let y = y + 20;
    let _ = println!(out;
        r#"<text x="8" y="{y}" text-anchor="start" font-weight="bold">{what}</text>"#
    );
}

pub fn open_group(out: &impl Print, y: u32) {
    let _ = println!(out; r#"<g transform="translate(0 {y})">"#);
}

pub fn close_group(out: &impl Print) {
    let _ = println!(out; "</g>");
}

// The picture's beginning; it has so many columns behind the head's, and is so high.
pub fn open(out: &impl Print, columns: u32, height: u32)
    requires { columns ≤ 10 }
{
    let width = left(columns) + STEP;
    let _ = println!(out;
        r#"<svg xmlns="http://www.w3.org/2000/svg" version="1.1" width="{width}" height="{height}" viewBox="0 0 {width} {height}">"#
    );
    styles(out);
}

// Arrow heads, colours and letters.
fn styles(out: &impl Print) {
    let _ = out.print(concat!(
        r#"<defs><marker id="to" viewBox="0 0 8 8" refX="8" refY="4" markerWidth="8" markerHeight="8" orient="auto">"#,
        r#"<path d="M0 0L8 4L0 8z"/></marker></defs>"#,
        "\n",
        r#"<style type="text/css">rect{fill:#eef;stroke:#333}line{stroke:#333}</style>"#,
        "\n",
        r#"<g font-family="monospace" font-size="12" text-anchor="middle">"#,
        "\n",
        r#"<rect width="100%" height="100%" style="fill:#fff;stroke:none"/>"#,
        "\n",
    ));
}

pub fn close(out: &impl Print) {
    let _ = out.print("</g>\n</svg>\n");
}
