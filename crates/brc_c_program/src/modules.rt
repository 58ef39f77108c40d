//! The modules that are written for a function, for those who ask to see them.

use crate::seen::Seen;
use brc_c_judge::Verdict;
use brc_c_objects::About;
use brc_c_report::{LineKind, add_head};
use brc_c_store::Rules;
use brc_c_text::Place;
use brc_report::Paint;
use std::alloc::{AllocError, Global};

/// The module of a function by a set of rules.
#[derive(Drop)]
pub(crate) struct Written {
    pub(crate) rules: Rules,
    pub(crate) text: Vec<u8>,
}

/// Notes the modules that the verdict on a function is about: one, or several if it is long, or one for each fault.
pub(crate) fn note_modules(
    alloc: Global,
    rules: Rules,
    verdict: &Verdict,
    seen: &mut Seen,
) -> Result<(), AllocError> {
    match verdict {
        Verdict::Right(first, others) => {
            note(alloc, rules, first.text(), seen)?;
            for accepted in others.iter() {
                note(alloc, rules, accepted.text(), seen)?;
            }
            Ok(())
        }
        Verdict::Wrong(faults) => {
            for fault in faults.iter() {
                note(alloc, rules, fault.text(), seen)?;
            }
            Ok(())
        }
        Verdict::TooLarge(_) | Verdict::Unconfirmed(_) | Verdict::NoImage => Ok(()),
    }
}

fn note(alloc: Global, rules: Rules, text: &[u8], seen: &mut Seen) -> Result<(), AllocError> {
    let text = Vec::from_slice(alloc, text)?;
    seen.modules.push(Written { rules, text })?;
    Ok(())
}

/// Appends the modules of a function, which is at this place.
pub(crate) fn add_modules(
    text: &mut String,
    paint: Paint,
    about: &About<'_>,
    place: Place,
    modules: &[Written],
) -> Result<(), AllocError> {
    let name = about.function.unwrap_or("");
    for written in modules {
        let rules = match written.rules {
            Rules::GlobalLock => "a global lock",
            Rules::FreeThreaded => "free threads",
        };
        add_head(text, paint, about.sources, place, LineKind::Note)?;
        write!(text, "the module of {name} by the rules of {rules}\n")?;
        let lines = String::from_utf8_lossy(about.alloc, written.text.as_slice())?;
        text.push_str(lines.as_str())?;
    }
    Ok(())
}
