//! A bar with its words and its title.
ghost use Rattle.std.specs.Prelude.{◌≡◌, ◌++◌, IfOk, OnOk, codes, option_map};
ghost use Rattle.toml.specs.View.{table_view};
ghost use Rattle.page_draw_plan_svg.specs.PlanPictures.{bar_svg, bar_title, bar_words, duty_class, edge_tag};
ghost use Rattle.page_draw_plan_svg.specs.PlanPictures.{edges_svg, fill_attribute, line_words, shown_svg, span_bar};
ghost use Rattle.book_scope_plan.specs.Bars.{duty_id};
ghost use Rattle.page_draw_plan_svg.specs.Spans.{bar_span};
ghost use Rattle.book_scope_plan.specs.FindingTexts.{text_if};
ghost use Rattle.draw_plan.specs.Drawn.{shown_of};

use crate::bars::{duty_id, push_duty};
use crate::names::push_named_row;
use crate::places::{bars_height, push_line_words};
use crate::shown::ShownBar;
use crate::spans::{bar_span, duty_lifetime, span_width, start_column};
use ao_base::push_decimal;
use book_scope_plan::{Duty, Slice};
use key_table::Lifetime;
use page_svg::{Point, push_box, push_colour, push_titled};
use plan_texts::push_times;
use std::alloc::{AllocError, Global};
use toml::Table;

/// How a bar is filled.
fn push_fill(out: &mut Vec<u8>, duty: Duty, key_id: u8) -> Result<(), AllocError>
    ensures { OnOk result (out.new.items ≡ out.old.items ++ fill_attribute duty key_id) }
{
    match duty {
        Duty::Accepts => out.extend_from_slice(b" fill=\"#fff\""),
        Duty::Sends => {
            out.extend_from_slice(b" fill=\"")?;
            push_colour(out, Some(key_id))?;
            out.extend_from_slice(b"\"")
        }
    }
}

/// A triangle at a side, which has these pieces around its height.
fn push_edge(
    out: &mut Vec<u8>,
    side: &[u8],
    point: &[u8],
    height: u64,
    attributes: &[u8],
) -> Result<(), AllocError>
    ensures { OnOk result (out.new.items ≡ out.old.items ++ edge_tag side.now point.now height attributes.now) }
{
    out.extend_from_slice(side)?;
    push_decimal(out, height)?;
    out.extend_from_slice(point)?;
    out.extend_from_slice(attributes)?;
    out.extend_from_slice(b"/>")
}

/// A triangle at the left side, where the bar goes on there.
fn push_left_if(
    out: &mut Vec<u8>,
    goes_on: bool,
    height: u64,
    attributes: &[u8],
) -> Result<(), AllocError>
    ensures { OnOk result (out.new.items ≡ out.old.items ++ text_if goes_on
        (edge_tag (codes "<path d=\"M20 ") (codes "l-9 6 9 6z\"") height attributes.now)) }
{
    if goes_on {
        push_edge(out, b"<path d=\"M20 ", b"l-9 6 9 6z\"", height, attributes)
    } else {
        Ok(())
    }
}

/// A triangle at the right side, where the bar goes on there.
fn push_right_if(
    out: &mut Vec<u8>,
    goes_on: bool,
    height: u64,
    attributes: &[u8],
) -> Result<(), AllocError>
    ensures { OnOk result (out.new.items ≡ out.old.items ++ text_if goes_on
        (edge_tag (codes "<path d=\"M780 ") (codes "l9 6-9 6z\"") height attributes.now)) }
{
    if goes_on {
        push_edge(out, b"<path d=\"M780 ", b"l9 6-9 6z\"", height, attributes)
    } else {
        Ok(())
    }
}

/// Triangles where a lifetime begins before the time or ends after it.
#[tactic(auto, unfolding(page_draw_plan_svg::specs::PlanPictures::edges_svg))]
fn push_edges(
    out: &mut Vec<u8>,
    height: u64,
    time: &Slice,
    lifetime: &Lifetime,
    attributes: &[u8],
) -> Result<(), AllocError>
    ensures { OnOk result (out.new.items ≡ out.old.items ++ edges_svg height time.now lifetime.now attributes.now) }
{
    let before = lifetime.first < time.first;
    push_left_if(out, before, height, attributes)?;
    push_right_if(out, time.last < lifetime.last, height, attributes)
}

/// A bar over these seconds, where there are some.
fn push_span(
    out: &mut Vec<u8>,
    line: u32,
    bar: &ShownBar,
    attributes: &[u8],
    span: Option<Slice>,
) -> Result<(), AllocError>
    ensures { OnOk result (out.new.items ≡ out.old.items ++ span_bar line (shown_of bar.now) attributes.now span) }
{
    match span {
        None => Ok(()),
        Some(span) => {
            let time = &bar.time;
            let at = Point {
                x: start_column(time, span.first),
                y: bars_height(line),
            };
            push_box(out, at, span_width(time, &span), 12, attributes)?;
            let lifetime = duty_lifetime(bar.duty, bar.row);
            push_edges(out, bars_height(line), time, &lifetime, attributes)
        }
    }
}

/// Whose a bar is.
#[tactic(auto, unfolding(page_draw_plan_svg::specs::PlanPictures::bar_words))]
fn push_bar_words(out: &mut Vec<u8>, document: &Table, bar: &ShownBar) -> Result<(), AllocError>
    ensures { OnOk result (out.new.items ≡ out.old.items ++ bar_words (table_view document.now) (shown_of bar.now)) }
{
    push_named_row(out, document, bar.name, bar.number)?;
    push_duty(out, bar.duty, bar.row)
}

/// The title of a bar.
#[tactic(auto, unfolding(page_draw_plan_svg::specs::PlanPictures::bar_title))]
fn bar_title(alloc: Global, document: &Table, bar: &ShownBar) -> Result<Vec<u8>, AllocError>
    ensures { IfOk result (λ text. text.items ≡ bar_title (table_view document.now) (shown_of bar.now)) }
{
    let lifetime = duty_lifetime(bar.duty, bar.row);
    let mut text = Vec::new(alloc);
    push_bar_words(&mut text, document, bar)?;
    text.extend_from_slice(b" from ")?;
    push_times(&mut text, lifetime.first, lifetime.last)?;
    Ok(text)
}

/// The words of a bar, and the bar.
fn bar_drawing(
    alloc: Global,
    document: &Table,
    line: u32,
    bar: &ShownBar,
) -> Result<Vec<u8>, AllocError>
    ensures { IfOk result (λ text. text.items ≡ line_words line (bar_words (table_view document.now) (shown_of bar.now))
        ++ span_bar line (shown_of bar.now) (fill_attribute bar.now.duty (duty_id bar.now.duty bar.now.row.now))
        (bar_span bar.now.pair bar.now.duty bar.now.row.now bar.now.time)) }
{
    let mut words = Vec::new(alloc);
    push_bar_words(&mut words, document, bar)?;
    let mut fill = Vec::new(alloc);
    push_fill(&mut fill, bar.duty, duty_id(bar.duty, bar.row))?;
    let span = bar_span(&bar.pair, bar.duty, bar.row, &bar.time);
    let mut text = Vec::new(alloc);
    push_line_words(&mut text, line, words.as_slice())?;
    push_span(&mut text, line, bar, fill.as_slice(), span)?;
    Ok(text)
}

fn duty_class(duty: Duty) -> &'static [u8]
    ensures { result.now ≡ duty_class duty }
{
    match duty {
        Duty::Accepts => b"accepts",
        Duty::Sends => b"sends",
    }
}

/// A bar with its words and its title, in the colour of its KeyID.
#[tactic(auto, unfolding(page_draw_plan_svg::specs::PlanPictures::shown_svg))]
fn push_shown(
    out: &mut Vec<u8>,
    document: &Table,
    line: u32,
    bar: &ShownBar,
) -> Result<(), AllocError>
    ensures { OnOk result (out.new.items ≡ out.old.items ++ shown_svg (table_view document.now) line
        (shown_of bar.now)) }
{
    let title = bar_title(*out.allocator(), document, bar)?;
    let drawing = bar_drawing(*out.allocator(), document, line, bar)?;
    push_titled(
        out,
        duty_class(bar.duty),
        Some(duty_id(bar.duty, bar.row)),
        title.as_slice(),
        drawing.as_slice(),
    )
}

/// A bar whose row is there.
pub(crate) fn push_bar(
    out: &mut Vec<u8>,
    document: &Table,
    line: u32,
    bar: Option<ShownBar>,
) -> Result<(), AllocError>
    ensures { OnOk result (out.new.items ≡ out.old.items ++ bar_svg (table_view document.now) line
        (option_map shown_of bar.entry)) }
{
    match bar {
        None => Ok(()),
        Some(bar) => push_shown(out, document, line, &bar),
    }
}
