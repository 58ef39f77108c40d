//! The lines of findings, as editors take them from a compiler.

use crate::finding::{Finding, Note};
use crate::level::Level;
use crate::line_kind::LineKind;
use brc_c_text::Place;
use brc_report::{Paint, Role};
use std::alloc::AllocError;

/// Appends the lines of a finding: what is wrong, the other places, the path, and what to write instead. `sources` has
/// the names of the sources, by their numbers.
pub fn add_finding_lines(
    text: &mut String,
    paint: Paint,
    sources: &[String],
    finding: &Finding,
) -> Result<(), AllocError> {
    let kind = LineKind::of(finding.level);
    add_head(text, paint, sources, finding.place, kind)?;
    text.push_str(finding.text.as_str())?;
    if let Level::Warning(reservation) = finding.level {
        let words = reservation.text();
        write!(text, " ({words})")?;
    }
    let on = kind.on(paint);
    let code = finding.code.name();
    let off = paint.off();
    write!(text, " [{on}{code}{off}]\n")?;
    for other in finding.others.iter() {
        add_note(text, paint, sources, *other, "here too")?;
    }
    for note in finding.path.iter() {
        add_note(text, paint, sources, note.place, note.text.as_str())?;
    }
    if let Some(mend) = &finding.mend {
        add_note(text, paint, sources, finding.place, mend.as_str())?;
    }
    Ok(())
}

fn add_note(
    text: &mut String,
    paint: Paint,
    sources: &[String],
    place: Place,
    words: &str,
) -> Result<(), AllocError> {
    add_head(text, paint, sources, place, LineKind::Note)?;
    write!(text, "{words}\n")
}

/// Appends what a line begins with: the name of the source, the line, the column, and what kind of line it is.
pub fn add_head(
    text: &mut String,
    paint: Paint,
    sources: &[String],
    place: Place,
    kind: LineKind,
) -> Result<(), AllocError> {
    let name = match sources.get(place.source) {
        Some(name) => name.as_str(),
        None => "?",
    };
    let line = place.line;
    let column = place.column;
    let bold = paint.on(Role::Rule);
    let off = paint.off();
    write!(text, "{bold}{name}:{line}:{column}:{off} ")?;
    let on = kind.on(paint);
    let word = kind.text();
    write!(text, "{on}{word}:{off} ")
}
