//! The plot of the last 24 hours: a point for each 10 minutes.
use crate::history::{History, Minute};
use relay_listing::{Piece, push_pieces};
use std::alloc::AllocError;

/// How many points there are.
const POINTS: u64 = 144;

/// How many minutes a point covers.
const STEP: u64 = 10;

/// The height of the plot, in its own units; the highest point is a little below it.
const HEIGHT: u64 = 100;

const HIGHEST: u64 = 95;

/// What is plotted.
#[derive(Clone, Copy)]
enum Curve {
    Accepted,
    Sent,
}

impl Curve {
    fn value(self, minutes: Minute) -> u64 {
        match self {
            Curve::Accepted => minutes.accepted,
            Curve::Sent => minutes.sent,
        }
    }
}

/// Adds the plot, and a line that explains it.
pub(crate) fn push_plot(text: &mut Vec<u8>, history: &History) -> Result<(), AllocError> {
    let top = top_of(history);
    push_pieces(
        text,
        &[Piece::Markup(
            b"<svg viewBox=\"0 0 143 100\" preserveAspectRatio=\"none\" role=\"img\" \
aria-label=\"Messages accepted and recipients sent in each 10 minutes of the last 24 hours\">\n\
<polyline class=\"came\" points=\"0,100",
        )],
    )?;
    push_curve(text, history, Curve::Accepted, top)?;
    push_pieces(
        text,
        &[Piece::Markup(b" 143,100\"/>\n<polyline class=\"went\" points=\"")],
    )?;
    push_curve(text, history, Curve::Sent, top)?;
    push_pieces(
        text,
        &[
            Piece::Markup(
                b"\"/>\n</svg>\n<div class=\"axis\"><span>24 h ago</span><span>most in 10 min: ",
            ),
            Piece::Number(top),
            Piece::Markup(b"</span><span>now</span></div>\n"),
        ],
    )
}

/// Adds the points of a curve, from the oldest to the last.
fn push_curve(
    text: &mut Vec<u8>,
    history: &History,
    curve: Curve,
    top: u64,
) -> Result<(), AllocError> {
    for point in 0..POINTS {
        let value = curve.value(sum_at(history, point));
        let height = value.saturating_mul(HIGHEST) / top.max(1);
        push_pieces(
            text,
            &[
                Piece::Markup(b" "),
                Piece::Number(point),
                Piece::Markup(b","),
                Piece::Number(HEIGHT.saturating_sub(height)),
            ],
        )?;
    }
    Ok(())
}

/// Returns what was done in the minutes of a point.
fn sum_at(history: &History, point: u64) -> Minute {
    let ago = POINTS.saturating_sub(1).saturating_sub(point);
    history.sum(ago.saturating_mul(STEP), STEP)
}

/// Returns the greatest value of both curves.
fn top_of(history: &History) -> u64 {
    let mut top = 0;
    for point in 0..POINTS {
        let sum = sum_at(history, point);
        top = sum.accepted.max(sum.sent).max(top);
    }
    top
}
