//! The SVG document of a picture (SVG 1.1).

use crate::bars::write_bar;
use crate::lanes::{write_box, write_guide, write_head, write_step};
use crate::legend::{legend_height, write_legend};
use crate::marked::{write_arrow, write_wrong};
use crate::picture::{Picture, Wrong, picture_of};
use crate::place::{LEFT, below, reason_across, whole_width};
use crate::reason::reason_height;
use crate::seen::Seen;
use crate::shapes::{close_text, open_text};
use crate::style::STYLE;
use brc_lang::{Function, write_bytes};
use std::alloc::{AllocError, Global};
use std::io;
use std::io::Write;

/// Returns the SVG document of what was seen of a run of these functions, with what goes wrong at its end.
pub fn svg_text(
    alloc: Global,
    functions: &[Function],
    seen: &Seen,
    wrong: Option<Wrong<'_>>,
) -> Result<Vec<u8>, AllocError> {
    let picture = picture_of(alloc, functions, seen)?;
    let mut text = Vec::new(alloc);
    match write_svg(&picture, wrong, &mut text) {
        Ok(()) => Ok(text),
        // A vector refuses bytes only for want of memory.
        Err(_) => Err(AllocError),
    }
}

/// Writes the picture as an SVG document, with what goes wrong at its end, and with the errors of
/// `brc_lang::write_bytes`.
pub fn write_svg<W: Write>(
    picture: &Picture,
    wrong: Option<Wrong<'_>>,
    out: &mut W,
) -> io::Result<()> {
    let end = match wrong {
        Some(wrong) => {
            below(picture).saturating_add(reason_height(
                wrong.reason(),
                reason_across(picture).width,
            ))
        }
        None => below(picture),
    };
    let height = end.saturating_add(legend_height(picture));
    write_opening(whole_width(picture), height, out)?;
    write_title(picture, out)?;
    write_lanes(picture, out)?;
    for bar in picture.bars.as_slice() {
        write_bar(picture.lanes.as_slice(), bar, out)?;
    }
    for arrow in picture.arrows.as_slice() {
        write_arrow(picture.lanes.as_slice(), arrow, out)?;
    }
    if let Some(wrong) = wrong {
        write_wrong(picture, wrong, out)?;
    }
    write_legend(picture, end, out)?;
    write_bytes(b"</svg>\n", out)
}

fn write_opening<W: Write>(width: u64, height: u64, out: &mut W) -> io::Result<()> {
    write!(
        out,
        "<svg xmlns=\"http://www.w3.org/2000/svg\" width=\"{width}\" height=\"{height}\" \
viewBox=\"0 0 {width} {height}\">\n"
    )?;
    write_bytes(STYLE.as_bytes(), out)?;
    write!(
        out,
        "<rect width=\"{width}\" height=\"{height}\" class=\"ground\"/>\n"
    )
}

fn write_title<W: Write>(picture: &Picture, out: &mut W) -> io::Result<()> {
    open_text(LEFT, 24, "rule", out)?;
    let shown = picture.steps.len() as u64;
    if picture.gone == 0 {
        write!(out, "{shown} steps, a line each")?;
    } else {
        let all = picture.gone.saturating_add(shown);
        write!(out, "the last {shown} of {all} steps, a line each")?;
    }
    write_bytes(b"; time runs down", out)?;
    close_text(out)
}

fn write_lanes<W: Write>(picture: &Picture, out: &mut W) -> io::Result<()> {
    let lanes = picture.lanes.as_slice();
    for lane in lanes {
        write_head(lanes, lane, out)?;
    }
    for step in picture.steps.as_slice() {
        write_guide(picture, step, out)?;
    }
    for part in picture.boxes.as_slice() {
        write_box(lanes, part, out)?;
    }
    for step in picture.steps.as_slice() {
        write_step(lanes, step, out)?;
    }
    Ok(())
}
