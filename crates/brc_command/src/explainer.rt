//! Who says in words what a code means, why a text can't be read or a module is refused or accepted, and what a
//! schedule has.

ghost use Rattle.std.specs.Prelude.{ℕ, List, IfOk};
ghost use Rattle.brc_lang.specs.Grammar.{IsModule};
ghost use Rattle.brc_report.specs.declared.paint.Paint.{Paint};
ghost use Rattle.brc_check.specs.Refusal.{IsRefusedFor};
ghost use Rattle.brc_command.specs.Explanations.{Subject, Code, UnreadableText, AcceptedModule, RefusedModule};
ghost use Rattle.brc_command.specs.Explanations.{ScheduleText};
ghost use Rattle.brc_command.specs.Explanations.{says_anything};

use brc_check::{Checked, Refused};
use brc_explain::{explain_accepted, explain_refused, explain_schedule, explain_unreadable};
use brc_lang::{Module, ReadFault};
use brc_pages::{Topic, write_page};
use brc_report::Paint;
use brc_world::NoMemory;
use std::alloc::Global;

/// What explains codes and modules in words.
///
/// No contract gives the words. Each call returns the whole text, or `NoMemory`.
pub trait Explain {
    // In this paint, the text may be what it says of the subject. Of an explainer that isn't known only its calls
    // promise this: a caller that has such a text has it from a call.
    ghost says: { Self → Paint → Subject → List ℕ → Type 0 };

    /// Says what a code means.
    fn page(&self, alloc: Global, topic: Topic, paint: Paint) -> Result<Vec<u8>, NoMemory>
        ensures { IfOk result (λ text. says self.now paint (Code topic) text.items) };

    /// Says why the bytes can't be read.
    fn unreadable(
        &self,
        alloc: Global,
        bytes: &[u8],
        fault: &ReadFault,
        paint: Paint,
    ) -> Result<Vec<u8>, NoMemory>
        ensures { IfOk result (λ text. says self.now paint (UnreadableText bytes.now fault.now) text.items) };

    /// Says what the checker found in an accepted module, or in its function of this number.
    fn accepted(
        &self,
        alloc: Global,
        checked: &Checked,
        only: Option<usize>,
        paint: Paint,
    ) -> Result<Vec<u8>, NoMemory>
        ensures { IfOk result (λ text. says self.now paint (AcceptedModule checked.now.module only) text.items) };

    /// Says why the module is refused, and what the checker found in its function of this number.
    fn refused(
        &self,
        alloc: Global,
        module: &Module,
        refused: &Refused,
        only: Option<usize>,
        paint: Paint,
    ) -> Result<Vec<u8>, NoMemory>
        requires fits { IsModule «module».now }
        requires refusal { IsRefusedFor «module».now.functions refused.now }
        ensures { IfOk result (λ text. says self.now paint (RefusedModule «module».now refused.now only) text.items) };

    /// Says why the bytes spell no schedule, by their fault, or what the schedule has, if there is none.
    fn schedule(
        &self,
        alloc: Global,
        bytes: &[u8],
        fault: Option<ReadFault>,
        paint: Paint,
    ) -> Result<Vec<u8>, NoMemory>
        ensures { IfOk result (λ text. says self.now paint (ScheduleText bytes.now fault) text.items) };
}

/// The program's explainer. What its words say is tested.
#[derive(Clone, Copy)]
pub struct Explainer;

impl Explain for Explainer {
    ghost says = { λ _ paint. says_anything };

    fn page(&self, alloc: Global, topic: Topic, paint: Paint) -> Result<Vec<u8>, NoMemory> {
        let mut text = Vec::new(alloc);
        match write_page(topic, paint, &mut text) {
            Ok(()) => Ok(text),
            // A vector refuses bytes only for want of memory.
            Err(_) => Err(NoMemory),
        }
    }

    fn unreadable(
        &self,
        alloc: Global,
        bytes: &[u8],
        fault: &ReadFault,
        paint: Paint,
    ) -> Result<Vec<u8>, NoMemory> {
        let mut text = Vec::new(alloc);
        match explain_unreadable(bytes, fault, paint, &mut text) {
            Ok(()) => Ok(text),
            Err(_) => Err(NoMemory),
        }
    }

    fn accepted(
        &self,
        alloc: Global,
        checked: &Checked,
        only: Option<usize>,
        paint: Paint,
    ) -> Result<Vec<u8>, NoMemory> {
        let mut text = Vec::new(alloc);
        match explain_accepted(alloc, checked, only, paint, &mut text) {
            Ok(()) => Ok(text),
            Err(_) => Err(NoMemory),
        }
    }

    fn refused(
        &self,
        alloc: Global,
        module: &Module,
        refused: &Refused,
        only: Option<usize>,
        paint: Paint,
    ) -> Result<Vec<u8>, NoMemory> {
        let mut text = Vec::new(alloc);
        match explain_refused(alloc, module, refused, only, paint, &mut text) {
            Ok(()) => Ok(text),
            Err(_) => Err(NoMemory),
        }
    }

    fn schedule(
        &self,
        alloc: Global,
        bytes: &[u8],
        fault: Option<ReadFault>,
        paint: Paint,
    ) -> Result<Vec<u8>, NoMemory> {
        let mut text = Vec::new(alloc);
        match explain_schedule(bytes, fault, paint, &mut text) {
            Ok(()) => Ok(text),
            Err(_) => Err(NoMemory),
        }
    }
}
