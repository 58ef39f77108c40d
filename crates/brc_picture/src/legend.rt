//! What the signs of a picture mean.

use crate::lanes::write_thread;
use crate::life::Life;
use crate::picture::Picture;
use crate::place::{Across, CHARACTER, LEFT, LINE, PAD, whole_width};
use crate::shapes::{close_text, digits_of, open_text, write_rect, write_text};
use crate::style::{life_class, thread_class};
use brc_lang::write_bytes;
use std::io;
use std::io::Write;

/// The states that the legend names, besides those of objects with an owner.
const STATES: &[(Life, &str)] = &[
    (Life::Unborn, "not yet born"),
    (Life::Queued, "queued"),
    (Life::Merged, "merged"),
    (Life::Dying, "dying"),
    (Life::Closed, "closed"),
];

/// The owners that the legend may name: main and 32 workers.
const OWNERS: usize = 33;

/// The signs for steps, references and work.
const SIGNS: &[(Sign, &str)] = &[
    (Sign::Guide, "leads to a step's object"),
    (Sign::Gap, "work that goes on further down"),
    (
        Sign::Arrow,
        "a reference moves to another thread; the number is its object's row",
    ),
];

/// A sign that isn't a colour.
#[derive(Clone, Copy)]
enum Sign {
    /// The dotted line from a step to its object.
    Guide,
    /// The dashed box.
    Gap,
    Arrow,
}

/// A sign of the legend with its words.
#[derive(Clone, Copy)]
enum Caption {
    State(Life, &'static str),
    Owner(u32),
    Sign(Sign, &'static str),
    /// How many objects have no bar.
    LeftOut(u64),
}

/// The most captions of a legend: five states, the owners, three signs, and how many objects have no bar.
const MOST_CAPTIONS: usize = 42;

/// The width of a colour's rectangle.
const SWATCH: u64 = 14;

/// The width of an arrow or a dotted line.
const STROKE: u64 = 28;

/// What is free behind a sign, and behind a caption.
const BEHIND_SIGN: u64 = 6;

const BEHIND: u64 = 16;

/// Where the lines of a legend end at the latest, so that it is seen as a whole below a wide picture.
const WIDEST: u64 = 1000;

/// The height of a line of the legend.
const HEIGHT: u64 = LINE + 4;

/// The characters of main's caption, and of a worker's before the worker's number.
const MAIN_CHARACTERS: u64 = 14;

const OWNER_CHARACTERS: u64 = 17;

/// The characters of how many objects have no bar.
const LEFT_OUT_CHARACTERS: u64 = 30;

impl Caption {
    /// Returns the width of its sign and of its words.
    fn width(self) -> u64 {
        let words = CHARACTER.saturating_mul(self.characters());
        self.sign_width()
            .saturating_add(BEHIND_SIGN)
            .saturating_add(words)
    }

    fn sign_width(self) -> u64 {
        match self {
            Caption::State(_, _) | Caption::Owner(_) | Caption::Sign(Sign::Gap, _) => SWATCH,
            Caption::Sign(Sign::Guide, _) | Caption::Sign(Sign::Arrow, _) => STROKE,
            Caption::LeftOut(_) => 0,
        }
    }

    fn characters(self) -> u64 {
        match self {
            Caption::State(_, words) | Caption::Sign(_, words) => words.len() as u64,
            Caption::Owner(0) => MAIN_CHARACTERS,
            Caption::Owner(owner) => OWNER_CHARACTERS.saturating_add(
                digits_of(u64::from(owner)) as u64,
            ),
            Caption::LeftOut(_) => LEFT_OUT_CHARACTERS,
        }
    }
}

/// Where the next caption is, from the legend's top.
#[derive(Clone, Copy)]
struct Pen {
    left: u64,
    line: u64,
    /// Where lines end.
    right: u64,
}

impl Pen {
    fn new(picture: &Picture) -> Pen {
        Pen {
            left: LEFT,
            line: 0,
            right: whole_width(picture).saturating_sub(PAD).min(WIDEST),
        }
    }

    /// Goes to the next line, if this one has no room for the caption.
    fn make_room(&mut self, caption: Caption) {
        let end = self.left.saturating_add(caption.width());
        if end > self.right && self.left > LEFT {
            self.left = LEFT;
            self.line = self.line.saturating_add(1);
        }
    }

    /// Goes behind the caption.
    fn pass(&mut self, caption: Caption) {
        self.left = self
            .left
            .saturating_add(caption.width())
            .saturating_add(BEHIND);
    }
}

/// Returns the caption of this number, if the picture has it.
fn caption_at(picture: &Picture, number: usize) -> Option<Caption> {
    if let Some((life, name)) = STATES.get(number) {
        return Some(Caption::State(*life, *name));
    }
    let behind = number.saturating_sub(STATES.len());
    if behind < OWNERS {
        return owner_at(picture, behind as u32);
    }
    let last = behind.saturating_sub(OWNERS);
    if let Some((sign, words)) = SIGNS.get(last) {
        return Some(Caption::Sign(*sign, *words));
    }
    match bars_left_out(picture) {
        0 => None,
        count => Some(Caption::LeftOut(count)),
    }
}

/// Returns the owner's caption, if a bar is the owner's.
fn owner_at(picture: &Picture, owner: u32) -> Option<Caption> {
    for bar in &picture.bars {
        if bar.owner == owner {
            return Some(Caption::Owner(owner));
        }
    }
    None
}

/// Returns how many objects have no bar.
fn bars_left_out(picture: &Picture) -> u64 {
    let mut count: u64 = 0;
    for bar in picture.bars.as_slice() {
        if bar.column.is_none() {
            count = count.saturating_add(1);
        }
    }
    count
}

/// Returns the height of the legend.
pub fn legend_height(picture: &Picture) -> u64 {
    let mut pen = Pen::new(picture);
    for number in 0..MOST_CAPTIONS {
        if let Some(caption) = caption_at(picture, number) {
            pen.make_room(caption);
            pen.pass(caption);
        }
    }
    HEIGHT.saturating_mul(pen.line.saturating_add(2))
}

/// Writes the legend below the top.
pub fn write_legend<W: Write>(picture: &Picture, top: u64, out: &mut W) -> io::Result<()> {
    let mut pen = Pen::new(picture);
    for number in 0..MOST_CAPTIONS {
        if let Some(caption) = caption_at(picture, number) {
            pen.make_room(caption);
            let line = top.saturating_add(HEIGHT.saturating_mul(pen.line));
            write_caption(caption, pen.left, line, out)?;
            pen.pass(caption);
        }
    }
    Ok(())
}

fn write_caption<W: Write>(caption: Caption, left: u64, top: u64, out: &mut W) -> io::Result<()> {
    let words = left
        .saturating_add(caption.sign_width())
        .saturating_add(BEHIND_SIGN);
    let base = top.saturating_add(11);
    match caption {
        Caption::State(life, name) => {
            write_swatch(left, top, life_class(life, 0), out)?;
            write_text(words, base, "rule", name.as_bytes(), out)
        }
        Caption::Owner(owner) => {
            write_swatch(left, top, thread_class(owner), out)?;
            open_text(words, base, "rule", out)?;
            write_bytes(b"alive, of ", out)?;
            write_thread(owner, out)?;
            close_text(out)
        }
        Caption::Sign(sign, text) => {
            write_sign(sign, left, top, out)?;
            write_text(words, base, "rule", text.as_bytes(), out)
        }
        Caption::LeftOut(count) => {
            open_text(words, base, "rule", out)?;
            write!(out, "{count} more objects have no bar")?;
            close_text(out)
        }
    }
}

fn write_sign<W: Write>(sign: Sign, left: u64, top: u64, out: &mut W) -> io::Result<()> {
    let middle = top.saturating_add(7);
    let to = left.saturating_add(STROKE);
    match sign {
        Sign::Guide => write!(
            out,
            "<path d=\"M{left} {middle}H{to}\" class=\"guide t0\"/>\n"
        ),
        Sign::Gap => write_swatch(left, top, "gap t0", out),
        Sign::Arrow => {
            write_text(left, top.saturating_add(10), "moved", b"2", out)?;
            let from = left.saturating_add(CHARACTER);
            write!(
                out,
                "<path d=\"M{from} {middle}H{to}\" class=\"moves\" marker-end=\"url(#tip)\"/>\n"
            )
        }
    }
}

fn write_swatch<W: Write>(left: u64, top: u64, class: &str, out: &mut W) -> io::Result<()> {
    let across = Across {
        left,
        width: SWATCH,
    };
    write_rect(across, top, 13, class, out)
}
