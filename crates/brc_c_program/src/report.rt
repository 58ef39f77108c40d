//! What a command writes of functions, in the format that is asked for.

use crate::asked::{Asked, AskedFormat};
use crate::counts::Counts;
use crate::modules::add_modules;
use crate::seen::Seen;
use crate::writing::{add_lines, in_order, is_shown, shows_assumptions};
use brc_c_objects::{
    About, assumed_object, complaint_object, complaint_result, counts_object, finding_object,
    finding_result, not_read_notice, not_read_object, sarif_document,
};
use brc_c_report::{LineKind, add_head};
use brc_c_text::Place;
use brc_report::Paint;
use serde_json::Value;
use std::alloc::{AllocError, Global};

/// What is to be written.
#[derive(Drop)]
pub(crate) struct Report {
    /// How the lines of a text are marked.
    paint: Paint,
    /// The lines, of text or of objects.
    text: String,
    /// The results of a document of SARIF.
    results: Vec<Value>,
    /// What such a document says of functions that aren't read.
    notices: Vec<Value>,
}

impl Report {
    pub(crate) fn new(alloc: Global, paint: Paint) -> Report {
        Report {
            paint,
            text: String::new(alloc),
            results: Vec::new(alloc),
            notices: Vec::new(alloc),
        }
    }

    /// Adds what is seen of a function of this name, which is at this place.
    pub(crate) fn add_seen<'a>(
        &mut self,
        alloc: Global,
        asked: &Asked<'_>,
        sources: &'a [String],
        name: &'a str,
        place: Place,
        seen: &Seen,
    ) -> Result<(), AllocError> {
        let about = About {
            alloc,
            sources,
            function: Some(name),
        };
        self.add_function(asked, &about, place, seen)
    }

    fn add_function(
        &mut self,
        asked: &Asked<'_>,
        about: &About<'_>,
        place: Place,
        seen: &Seen,
    ) -> Result<(), AllocError> {
        match asked.format {
            AskedFormat::Text => self.add_text(asked, about, place, seen),
            AskedFormat::Json => self.add_objects(asked, about, place, seen),
            AskedFormat::Sarif => self.add_results(asked, about, seen),
        }
    }

    fn add_text(
        &mut self,
        asked: &Asked<'_>,
        about: &About<'_>,
        place: Place,
        seen: &Seen,
    ) -> Result<(), AllocError> {
        let paint = self.paint;
        let text = &mut self.text;
        add_lines(text, paint, asked, about, place, seen)?;
        add_modules(text, paint, about, place, seen.modules.as_slice())
    }

    fn add_objects(
        &mut self,
        asked: &Asked<'_>,
        about: &About<'_>,
        place: Place,
        seen: &Seen,
    ) -> Result<(), AllocError> {
        let assumed = seen.assumed.as_slice();
        let findings = in_order(about.alloc, seen.findings.as_slice())?;
        for finding in findings.iter() {
            if is_shown(asked, finding) {
                let object = finding_object(about, finding, assumed)?;
                self.add_object(about.alloc, &object)?;
            }
        }
        if let Some(obstacle) = &seen.obstacle {
            let object = not_read_object(about, obstacle.place, obstacle.reason.as_str())?;
            self.add_object(about.alloc, &object)?;
        }
        if shows_assumptions(asked, seen) {
            let object = assumed_object(about, place, assumed)?;
            self.add_object(about.alloc, &object)?;
        }
        Ok(())
    }

    fn add_object(&mut self, alloc: Global, object: &Value) -> Result<(), AllocError> {
        let line = object.to_string(alloc)?;
        self.text.push_str(line.as_str())?;
        self.text.push_str("\n")
    }

    /// Adds the results of a function, those that a comment takes away with its reason.
    fn add_results(
        &mut self,
        asked: &Asked<'_>,
        about: &About<'_>,
        seen: &Seen,
    ) -> Result<(), AllocError> {
        let findings = in_order(about.alloc, seen.findings.as_slice())?;
        for finding in findings.iter() {
            if finding.suppressed.is_some() || is_shown(asked, finding) {
                self.results.push(finding_result(about, finding)?)?;
            }
        }
        if let Some(obstacle) = &seen.obstacle {
            let reason = obstacle.reason.as_str();
            let notice = not_read_notice(about, obstacle.place, reason)?;
            self.notices.push(notice)?;
        }
        Ok(())
    }

    /// Adds what is wrong with a comment that is to take findings away.
    pub(crate) fn add_complaint(
        &mut self,
        alloc: Global,
        asked: &Asked<'_>,
        sources: &[String],
        place: Place,
        words: &str,
    ) -> Result<(), AllocError> {
        let about = About {
            alloc,
            sources,
            function: None,
        };
        match asked.format {
            AskedFormat::Text => {
                let paint = self.paint;
                let text = &mut self.text;
                add_head(text, paint, about.sources, place, LineKind::Warning)?;
                write!(text, "{words}\n")
            }
            AskedFormat::Json => {
                let object = complaint_object(&about, place, words)?;
                self.add_object(about.alloc, &object)
            }
            AskedFormat::Sarif => {
                self.results.push(complaint_result(&about, place, words)?)?;
                Ok(())
            }
        }
    }

    /// Returns all that is written. `is_whole` says whether all files are read.
    pub(crate) fn end(
        mut self,
        alloc: Global,
        asked: &Asked<'_>,
        counts: &Counts,
        is_whole: bool,
    ) -> Result<String, AllocError> {
        match asked.format {
            AskedFormat::Text => counts.add_line(&mut self.text, asked.shows_possible)?,
            AskedFormat::Json => self.add_counts(alloc, counts)?,
            AskedFormat::Sarif => return self.document(alloc, asked.version, is_whole),
        }
        Ok(self.text)
    }

    fn add_counts(&mut self, alloc: Global, counts: &Counts) -> Result<(), AllocError> {
        let mut line = String::new(alloc);
        counts.add_line(&mut line, true)?;
        let about = About {
            alloc,
            sources: &[],
            function: None,
        };
        let object = counts_object(&about, counts.value(alloc)?, line.as_str().trim_ascii_end())?;
        self.add_object(alloc, &object)
    }

    fn document(self, alloc: Global, version: &str, is_whole: bool) -> Result<String, AllocError> {
        let Report {
            paint: _,
            text: _,
            results,
            notices,
        } = self;
        let document = sarif_document(alloc, version, results, notices, is_whole)?;
        let mut line = document.to_string(alloc)?;
        line.push_str("\n")?;
        Ok(line)
    }
}
