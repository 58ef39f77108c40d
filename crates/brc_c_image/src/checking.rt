//! The check of what an image says of the graph's paths.

ghost use Rattle.std.specs.Prelude.{IfOk, IsTrue, Contains};
ghost use Rattle.brc_c_image.specs.declared.image.Text.{Text};
ghost use Rattle.brc_c_image.specs.GraphOutlines.{IsOutlineOf};
ghost use Rattle.brc_c_image.specs.Images.{IsImageOf, IsRightImage, IsWrongImage};

use crate::image::{Image, Text};
use crate::matching::is_outline;
use brc_c_graph::Graph;
use brc_c_paths::{Fault, Liveness, Point, all_listed, are_paths, is_right};
use brc_c_store::Rules;
use std::alloc::{AllocError, Global};

/// Returns an image if what it says of the graph's paths is found to hold, by the points of the search.
pub(crate) fn checked(
    alloc: Global,
    rules: Rules,
    graph: &Graph,
    live: &Liveness,
    points: &[Point],
    image: Image,
) -> Result<Image, AllocError>
    ensures { IfOk result (IsImageOf rules graph.now) }
{
    match image {
        Image::Right(texts) => {
            if is_right_image(alloc, rules, graph, live, points, texts.as_slice())? {
                Ok(Image::Right(texts))
            } else {
                Ok(Image::Unmatched)
            }
        }
        Image::Wrong(faults, texts) => {
            let faults_now = faults.as_slice();
            if is_wrong_image(
                alloc,
                rules,
                graph,
                live,
                points,
                faults_now,
                texts.as_slice(),
            )? {
                Ok(Image::Wrong(faults, texts))
            } else {
                Ok(Image::Unmatched)
            }
        }
        Image::TooLarge(size) => Ok(Image::TooLarge(size)),
        Image::Unmatched => Ok(Image::Unmatched),
    }
}

/// Returns whether no path breaks a rule, and these are texts of the graph.
fn is_right_image(
    alloc: Global,
    rules: Rules,
    graph: &Graph,
    live: &Liveness,
    points: &[Point],
    texts: &[Text],
) -> Result<bool, AllocError>
    ensures { IfOk result (λ yes. IsTrue yes → IsRightImage rules graph.now texts.now) }
{
    if !is_right(alloc, rules, graph, live, points)? {
        return Ok(false);
    }
    are_outlines(rules, graph, points, texts)
}

/// Returns whether the faults are just the rules that paths break, and these are texts of the graph.
fn is_wrong_image(
    alloc: Global,
    rules: Rules,
    graph: &Graph,
    live: &Liveness,
    points: &[Point],
    faults: &[Fault],
    texts: &[Text],
) -> Result<bool, AllocError>
    ensures { IfOk result (λ yes. IsTrue yes → IsWrongImage rules graph.now faults.now texts.now) }
{
    if !are_paths(alloc, rules, graph, live, faults)? {
        return Ok(false);
    }
    if !all_listed(alloc, rules, graph, live, points, faults)? {
        return Ok(false);
    }
    are_outlines(rules, graph, points, texts)
}

fn are_outlines(
    rules: Rules,
    graph: &Graph,
    points: &[Point],
    texts: &[Text],
) -> Result<bool, AllocError>
    ensures { IfOk result (λ yes. IsTrue yes → (text : Text) → Contains texts.now text
        → IsOutlineOf rules graph.now points.now text.outline text.is_whole) }
{
    for text in texts {
        if !is_outline(
            rules,
            graph,
            points,
            &text.outline,
            &text.labels,
            text.is_whole,
        )? {
            return Ok(false);
        }
    }
    Ok(true)
}
