//! The page of a code: its meaning, the rule behind it, the usual mend, and an example with its mended form.

ghost use Rattle.std.specs.Prelude.{◌≡◌, Some};
ghost use Rattle.brc_pages.specs.Topics.{topic_named};

use crate::check_pages::check_page;
use crate::read_pages::read_page;
use crate::text::{write_gap, write_heading, write_paragraph, write_section, write_title};
use crate::topic::Topic;
use brc_lang::{write_bytes, write_pieces};
use brc_report::Paint;
use std::io;
use std::io::Write;

/// A line of an example: the text, and a remark for the reader, which isn't part of the text and may be empty.
pub type ExampleLine = (&'static str, &'static str);

/// The page of a code. Its paragraphs are lists of lines.
#[derive(Clone, Copy)]
pub struct Page {
    /// The code, as `C5`.
    pub code: &'static str,
    /// The code in words.
    pub title: &'static str,
    /// When the code is reported.
    pub meaning: &'static [&'static str],
    /// What the rule is about.
    pub rule_heading: &'static str,
    /// The rule of the Python/C API for which the code stands, or of the text.
    pub rule: &'static [&'static str],
    /// The usual mend.
    pub mend: &'static [&'static str],
    /// A text with this fault, or no line if no text has it.
    pub example: &'static [ExampleLine],
    /// What `brc check` prints of the example.
    pub printed: &'static str,
    /// The text without the fault.
    pub mended: &'static [ExampleLine],
}

/// The width of an example's text, for which its remarks leave room.
const TEXT_WIDTH: usize = 24;

/// Returns the page of a code.
pub fn page_of(topic: Topic) -> Page
    ensures { topic_named result.code.now ≡ Some topic }
{
    match topic {
        Topic::Check(code) => check_page(code),
        Topic::Read(code) => read_page(code),
    }
}

/// Writes the page of a code, with the errors of `brc_lang::write_bytes`.
pub fn write_page<W: Write>(topic: Topic, paint: Paint, out: &mut W) -> io::Result<()> {
    let page = page_of(topic);
    write_title(page.code, page.title, paint, out)?;
    write_bytes(b"\n", out)?;
    write_paragraph(page.meaning, out)?;
    write_section(page.rule_heading, page.rule, paint, out)?;
    write_section("How to mend it", page.mend, paint, out)?;
    write_examples(&page, paint, out)
}

/// Writes the example of a page and its mended form, if there is one.
fn write_examples<W: Write>(page: &Page, paint: Paint, out: &mut W) -> io::Result<()> {
    if page.example.is_empty() {
        return Ok(());
    }
    write_heading("Example", paint, out)?;
    write_example(page.example, out)?;
    write_pieces(
        &[b"\n  `brc check` prints: ", page.printed.as_bytes(), b"\n"],
        out,
    )?;
    write_heading("Mended", paint, out)?;
    write_example(page.mended, out)
}

fn write_example<W: Write>(lines: &[ExampleLine], out: &mut W) -> io::Result<()> {
    for (text, remark) in lines {
        write_example_line(text, remark, out)?;
    }
    Ok(())
}

fn write_example_line<W: Write>(text: &str, remark: &str, out: &mut W) -> io::Result<()> {
    write_pieces(&[b"    ", text.as_bytes()], out)?;
    if !remark.is_empty() {
        write_gap(text.len(), TEXT_WIDTH, out)?;
        write_bytes(remark.as_bytes(), out)?;
    }
    write_bytes(b"\n", out)
}
