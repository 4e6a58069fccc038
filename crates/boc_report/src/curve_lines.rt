// The lines of a curve.

ghost use Rattle.std.specs.Prelude.{◌≡◌, ◌++◌, OnOk, IfOk};
ghost use Rattle.boc_report.specs.Texts.{curve_line, curve_lines, curve_text as curve_text_spec, number_line};

use boc_greedy::CurvePoint;
use boc_text::put_number;
use std::alloc::{AllocError, Global};

/// Returns the text of a curve: the work, the span, and a line for each point, with the number of workers, the end of their greedy plan, the tick
/// before which no plan of theirs ends, and the tick by which the greedy one has ended. All but the workers are ticks. `AllocError` says
/// that memory was refused.
pub fn curve_text(
    alloc: Global,
    work: u64,
    span: u64,
    points: &[CurvePoint],
) -> Result<Vec<u8>, AllocError>
    ensures { IfOk result (λ text. text.items ≡ curve_text_spec work span points.now) }
{
    let mut text = Vec::new(alloc);
    put_line(&mut text, b"work ", work)?;
    put_line(&mut text, b"span ", span)?;
    put_points(&mut text, points)?;
    Ok(text)
}

// Writes a line of a word and a number.
fn put_line(text: &mut Vec<u8>, word: &[u8], number: u64) -> Result<(), AllocError>
    ensures { OnOk result (text.new.items ≡ text.old.items ++ number_line word.now number) }
{
    text.extend_from_slice(word)?;
    put_number(text, number)?;
    text.push(b'\n')?;
    Ok(())
}

// Writes the lines of the points.
fn put_points(text: &mut Vec<u8>, points: &[CurvePoint]) -> Result<(), AllocError>
    ensures { OnOk result (text.new.items ≡ text.old.items ++ curve_lines points.now) }
{
    match points {
        [] => Ok(()),
        [point, rest @ ..] => {
            put_point(text, point)?;
            put_points(text, rest)
        }
    }
}

// Writes the line of a point.
fn put_point(text: &mut Vec<u8>, point: &CurvePoint) -> Result<(), AllocError>
    ensures { OnOk result (text.new.items ≡ text.old.items ++ curve_line point.now) }
{
    put_number(text, u64::from(point.workers))?;
    text.push(b' ')?;
    put_number(text, point.end)?;
    text.push(b' ')?;
    put_number(text, point.low)?;
    text.push(b' ')?;
    put_number(text, point.bound)?;
    text.push(b'\n')?;
    Ok(())
}
