use crate::building::Builder;
use crate::names::Kind;
use crate::purpose::{ArgumentNames, FieldName, OutNames, Purpose, RowFlow};
use crate::reasons::Unread;
use crate::statements::STATEMENT_DEPTH;
use crate::stop::Stop;
use crate::surroundings::Program;
use brc_c_graph::{Graph, NodeId};
use brc_c_store::Event;
use brc_c_tree::{Body, Function, StatementId};
use std::alloc::{AllocError, Global};

/// What is made of a function.
#[derive(Drop)]
pub enum Flow {
    Graph(Graph),
    NotRead(Unread),
    /// The function touches no object: there is nothing to judge.
    NoObjects,
}

/// Returns the graph of a function, or why there is none. Of a function whose body isn't read there is none either.
///
/// # Errors
///
/// Only if memory is refused.
pub fn flow_of<'a>(
    alloc: Global,
    program: &Program<'a>,
    function: &'a Function,
) -> Result<Flow, AllocError> {
    let Body::Read(tree, whole) = &function.body else {
        return Ok(Flow::NoObjects);
    };
    let purpose = Purpose::Verdict(program.own.row(function.name));
    let mut builder = Builder::new(alloc, program, purpose, function, tree)?;
    match build(&mut builder, *whole) {
        Ok(()) => {}
        Err(Stop::Unread(why)) => return Ok(Flow::NotRead(why)),
        Err(Stop::NoMemory) => return Err(AllocError),
    }
    if builder.has_objects {
        Ok(Flow::Graph(builder.graph))
    } else {
        Ok(Flow::NoObjects)
    }
}

/// Returns the graph from which a function's row is made, or `None` if there is none.
///
/// # Errors
///
/// Only if memory is refused.
pub fn row_flow_of<'a>(
    alloc: Global,
    program: &Program<'a>,
    function: &'a Function,
    is_helper: bool,
) -> Result<Option<RowFlow>, AllocError> {
    let Body::Read(tree, whole) = &function.body else {
        return Ok(None);
    };
    let purpose = Purpose::Row { is_helper };
    let mut builder = Builder::new(alloc, program, purpose, function, tree)?;
    match build(&mut builder, *whole) {
        Ok(()) => {}
        Err(Stop::Unread(_)) => return Ok(None),
        Err(Stop::NoMemory) => return Err(AllocError),
    }
    let arguments = arguments_of(&builder)?;
    let outs = outs_of(&builder)?;
    let fields = fields_of(&builder)?;
    Ok(Some(RowFlow {
        graph: builder.graph,
        gives_objects: builder.gives_objects,
        returns: builder.returns,
        arguments,
        outs,
        fields,
    }))
}

/// Returns the parameters that are addresses of variables.
fn outs_of(builder: &Builder<'_>) -> Result<Vec<OutNames>, AllocError> {
    let mut outs = Vec::new(builder.alloc);
    for out in builder.outs.iter() {
        outs.push(OutNames {
            argument: out.number,
            local: out.local,
            first: out.first,
            last: out.last,
        })?;
    }
    Ok(outs)
}

/// Returns the fields that are asked for at the ends.
fn fields_of(builder: &Builder<'_>) -> Result<Vec<FieldName>, AllocError> {
    let mut fields = Vec::new(builder.alloc);
    for asked in builder.asked_fields.iter() {
        fields.push(FieldName {
            null: asked.null,
            local: asked.local,
        })?;
    }
    Ok(fields)
}

/// Returns the parameters of a graph.
fn arguments_of(builder: &Builder<'_>) -> Result<Vec<ArgumentNames>, AllocError> {
    let mut arguments = Vec::new(builder.alloc);
    for (number, parameter) in builder.function.parameters.iter().enumerate() {
        let mut found = ArgumentNames {
            local: None,
            kept: None,
        };
        if let Some(name) = parameter.name {
            if let Some(variable) = builder.variable(name) {
                if variable.kind == Kind::Object {
                    found.local = variable.local;
                }
            }
        }
        for kept in builder.kept.iter() {
            if kept.number == number {
                found.kept = Some(kept.local);
            }
        }
        arguments.push(found)?;
    }
    Ok(arguments)
}

/// Makes the graph of a function whose body is the statement.
fn build(builder: &mut Builder<'_>, whole: StatementId) -> Result<(), Stop> {
    builder.find_variables()?;
    builder.promote_variables()?;
    builder.find_habits()?;
    builder.find_conditions()?;
    builder.find_singled()?;
    builder.find_result()?;
    builder.name_variables()?;
    builder.find_elements()?;
    builder.find_outs()?;
    builder.find_asked_fields()?;
    builder.find_slices()?;
    let place = builder.function.place;
    builder.emit(Event::Pass, place, None)?;
    builder.emit(Event::Pass, place, None)?;
    builder.lend_parameters()?;
    builder.begin_outs()?;
    builder.statement(whole, STATEMENT_DEPTH)?;
    builder.finish()?;
    builder.check_labels()
}
