//! The lanes of a run with what happened, from the top down.
ghost use Rattle.std.specs.Prelude.{◌≡◌, ◌++◌, flat_map, IfOk, OnOk};
ghost use Rattle.lane_drawing.specs.Marks.{marks_of};
ghost use Rattle.run_picture.specs.Folding.{shown_marks, marks_as};

use crate::folding::{Showing, shown_as};
use crate::heads::draw_lanes;
use crate::rows::Scene;
use lane_drawing::{Layout, Pen, WIDTH};
use page_text::{Drawing, Shape};
use rep_lists::{Items, NoMemory};
use run_story::{Lane, Line, Story};
use std::alloc::Global;

/// Where the first row begins.
const TOP: u32 = 8;

/// How far the rows are drawn: the height below them, and how many lines were left out behind the last one.
#[derive(Clone, Copy)]
struct Progress {
    y: u32,
    left_out: u64,
}

/// Notes at which height the lanes begin whose sites are there from a line on.
fn note_starts(lanes: &[Lane], number: usize, y: u32, starts: &mut Vec<Option<u32>>) {
    for place in 0..lanes.len().min(starts.len()) {
        if let Some(since) = lanes[place].since {
            if since as usize == number {
                starts[place] = Some(y);
            }
        }
    }
}

/// The line from which on sites are there.
fn first_running(lanes: &[Lane]) -> usize {
    let mut first = usize::MAX;
    for lane in lanes {
        if let Some(since) = lane.since {
            first = first.min(since as usize);
        }
    }
    first
}

/// No lane has a beginning.
fn no_starts(alloc: Global, lanes: usize) -> Result<Vec<Option<u32>>, NoMemory> {
    let mut starts = Vec::new(alloc);
    for _ in 0..lanes {
        starts.push(None)?;
    }
    Ok(starts)
}

/// Tells how many lines are left out, if some are.
fn draw_left_out(scene: &Scene<'_>, pen: &mut Pen, progress: &mut Progress) -> Result<(), NoMemory>
    ensures { OnOk result (pen.new ≡ pen.old) }
{
    if progress.left_out > 0 {
        progress.y = scene.draw_fold(pen, progress.left_out, progress.y)?;
        progress.left_out = 0;
    }
    Ok(())
}

/// Draws a line, counts it among those that are left out, or doesn't look at it.
fn draw_or_count(
    scene: &Scene<'_>,
    pen: &mut Pen,
    number: usize,
    line: &Line,
    showing: Showing,
    progress: &mut Progress,
) -> Result<(), NoMemory>
    ensures { OnOk result (pen.new ≡ pen.old ++ marks_as showing scene.now.story.now line.now) }
{
    match showing {
        Showing::Left => Ok(()),
        Showing::Folded => {
            progress.left_out = progress.left_out.saturating_add(1);
            Ok(())
        }
        Showing::Drawn => {
            draw_left_out(scene, pen, progress)?;
            progress.y = scene.draw_line(pen, number, line, progress.y)?;
            Ok(())
        }
    }
}

/// Shows the line at a place.
fn show_line(
    scene: &Scene<'_>,
    pen: &mut Pen,
    place: usize,
    line: &Line,
    folded: bool,
    progress: &mut Progress,
) -> Result<(), NoMemory>
    ensures { OnOk result (pen.new ≡ pen.old ++ shown_marks scene.now.story.now folded line.now) }
{
    let is_running = first_running(scene.story.lanes()) <= place;
    let showing = shown_as(scene.story, line, folded, is_running);
    draw_or_count(scene, pen, place.saturating_add(1), line, showing, progress)?;
    Ok(())
}

/// Draws the rows of a story. It gives the height below them.
fn draw_rows(
    scene: &Scene<'_>,
    pen: &mut Pen,
    folded: bool,
    starts: &mut Vec<Option<u32>>,
) -> Result<u32, NoMemory>
    ensures { OnOk result (pen.new ≡ pen.old ++ flat_map (shown_marks scene.now.story.now folded) scene.now.story.now.lines) }
{
    let lines = scene.story.lines();
    let mut progress = Progress {
        y: TOP,
        left_out: 0,
    };
    for place in 0..lines.len() {
        show_line(scene, pen, place, &lines[place], folded, &mut progress)?;
        note_starts(
            scene.story.lanes(),
            place.saturating_add(1),
            progress.y,
            starts,
        );
    }
    draw_left_out(scene, pen, &mut progress)?;
    Ok(progress.y.saturating_add(10))
}

/// Shapes behind others.
#[tactic(auto, using(crate::proofs::Shown::marks_behind))]
fn joined(front: Vec<Shape>, back: Vec<Shape>) -> Result<Items<Shape>, NoMemory>
    ensures { IfOk result (λ shapes. marks_of shapes ≡ marks_of front.items ++ marks_of back.items) }
{
    let mut shapes = front;
    let mut back = back;
    shapes.append(&mut back)?;
    Ok(Items::from_vec(shapes))
}

/// The lanes of a run with what happened. The marks of the entries of journals are, in their order, those of the lines that are
/// shown.
pub fn chart(
    alloc: Global,
    layout: &Layout,
    story: &Story,
    folded: bool,
) -> Result<Drawing, NoMemory>
    ensures { IfOk result (λ drawing. marks_of drawing.shapes ≡ flat_map (shown_marks story.now folded) story.now.lines) }
{
    let scene = Scene {
        alloc,
        layout: *layout,
        story,
    };
    let mut starts = no_starts(alloc, story.lanes().len())?;
    let mut rows = Pen::new(alloc);
    let bottom = draw_rows(&scene, &mut rows, folded, &mut starts)?;
    let mut lanes = Pen::new(alloc);
    draw_lanes(&mut lanes, layout, story.lanes(), &starts, bottom)?;
    Ok(Drawing {
        width: WIDTH,
        height: bottom,
        shapes: joined(lanes.into_shapes(), rows.into_shapes())?,
    })
}
