//! Loops and `switch`.

use crate::building::{Branches, Builder, Switch};
use crate::expressions::EXPRESSION_DEPTH;
use crate::operand::{Operand, Want};
use crate::reasons::FlowReason;
use crate::stop::{Stop, unread};
use brc_c_graph::{NodeId, Words};
use brc_c_store::{Choice, Comparison, Event, Test};
use brc_c_text::Place;
use brc_c_tree::{ExpressionId, StatementId};

impl<'a> Builder<'a> {
    #[cycle(statement)]
    pub(crate) fn while_statement(
        &mut self,
        condition: ExpressionId,
        body: StatementId,
        place: Place,
        depth: usize,
    ) -> Result<(), Stop> {
        let head = self.meeting(place)?;
        let inside = self.meeting(place)?;
        let end = self.meeting(place)?;
        self.land(head);
        let branches = Branches {
            holds: inside,
            fails: end,
        };
        self.condition(condition, branches, EXPRESSION_DEPTH)?;
        self.land(inside);
        self.loop_body(body, head, end, depth)?;
        self.jump(head);
        self.land(end);
        Ok(())
    }

    #[cycle(statement)]
    pub(crate) fn do_statement(
        &mut self,
        body: StatementId,
        condition: ExpressionId,
        place: Place,
        depth: usize,
    ) -> Result<(), Stop> {
        let head = self.meeting(place)?;
        let next = self.meeting(place)?;
        let end = self.meeting(place)?;
        self.land(head);
        self.loop_body(body, next, end, depth)?;
        self.land(next);
        let branches = Branches {
            holds: head,
            fails: end,
        };
        self.condition(condition, branches, EXPRESSION_DEPTH)?;
        self.land(end);
        Ok(())
    }

    #[cycle(statement)]
    pub(crate) fn for_statement(
        &mut self,
        condition: Option<ExpressionId>,
        next: Option<ExpressionId>,
        body: StatementId,
        place: Place,
        depth: usize,
    ) -> Result<(), Stop> {
        let head = self.meeting(place)?;
        let inside = self.meeting(place)?;
        let turn = self.meeting(place)?;
        let end = self.meeting(place)?;
        self.land(head);
        if let Some(condition) = condition {
            let branches = Branches {
                holds: inside,
                fails: end,
            };
            self.condition(condition, branches, EXPRESSION_DEPTH)?;
        }
        self.land(inside);
        self.loop_body(body, turn, end, depth)?;
        self.land(turn);
        if let Some(next) = next {
            self.value(next, Want::NOTHING, EXPRESSION_DEPTH)?;
        }
        self.jump(head);
        self.land(end);
        Ok(())
    }

    /// Adds a loop's body, with where `continue` and `break` lead.
    #[cycle(statement)]
    fn loop_body(
        &mut self,
        body: StatementId,
        next: NodeId,
        end: NodeId,
        depth: usize,
    ) -> Result<(), Stop> {
        self.continues.push(next)?;
        self.breaks.push(end)?;
        self.statement(body, depth)?;
        let _ = self.breaks.pop();
        let _ = self.continues.pop();
        Ok(())
    }

    #[cycle(statement)]
    pub(crate) fn switch_statement(
        &mut self,
        value: ExpressionId,
        body: StatementId,
        place: Place,
        depth: usize,
    ) -> Result<(), Stop> {
        let end = self.meeting(place)?;
        let counted = match self.value(value, Want::ASKED, EXPRESSION_DEPTH)? {
            Operand::Counted(local) => Some(local),
            _ => None,
        };
        let rest = self.open;
        self.switches.push(Switch {
            value,
            counted,
            rest,
            default: None,
        })?;
        self.open = None;
        self.breaks.push(end)?;
        self.statement(body, depth)?;
        self.jump(end);
        let _ = self.breaks.pop();
        if let Some(switch) = self.switches.pop() {
            self.open = switch.rest;
            self.jump(switch.default.unwrap_or(end));
        }
        self.land(end);
        Ok(())
    }

    /// Goes on where a `switch` finds a value.
    pub(crate) fn case(&mut self, value: ExpressionId, place: Place) -> Result<(), Stop> {
        let Some(switch) = self.switches.last().copied() else {
            return Err(unread(place, FlowReason::OutOfPlace));
        };
        let before = self.open;
        self.open = switch.rest;
        let event = match (switch.counted, self.constant_in(value)) {
            (Some(of), Some(constant)) => Event::Sign {
                of,
                test: Test {
                    comparison: Comparison::Equal,
                    constant,
                },
            },
            _ => Event::Choice(None),
        };
        let words = self.case_words(switch.value, value)?;
        let id = self.emit(event, place, Some(words))?;
        if let Some(found) = self.switches.last_mut() {
            found.rest = Some((id, Choice::No));
        }
        let here = self.meeting(place)?;
        self.open = before;
        self.jump(here);
        self.resume(id, Choice::Yes);
        self.land(here);
        Ok(())
    }

    /// Returns the words of what a `case` asks.
    fn case_words(&mut self, value: ExpressionId, case: ExpressionId) -> Result<Words, Stop> {
        let mut text = self.written(value)?;
        text.push_str(" == ")?;
        let case = self.written(case)?;
        text.push_str(case.as_str())?;
        Ok(self.graph.add_words(text)?)
    }

    /// Goes on where a `switch` finds none of the values.
    pub(crate) fn default_case(&mut self, place: Place) -> Result<(), Stop> {
        let here = self.meeting(place)?;
        match self.switches.last_mut() {
            Some(switch) => switch.default = Some(here),
            None => return Err(unread(place, FlowReason::OutOfPlace)),
        }
        self.land(here);
        Ok(())
    }
}
