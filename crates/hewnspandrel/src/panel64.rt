// Derived from crates/hewnspandrel/src/panel32.rt by tools/derive: edit that.
// The functions of panels of f64. An export has no type parameter, nor has a struct in its signature: so each real has its own.
ghost use Rattle.std.specs.Float.{binary64};
ghost use Rattle.hewnspandrel.specs.Answers.{FileRead, ElementAnswered};

use crate::head::Head;
use panel::panels::element_at;
use panel::reader::read;

// 0 and the element, or the refusal's number and a NaN. A record of both: C has no Result.
#[repr(C)]
#[derive(Clone, Copy)]
pub struct Element {
    pub answer: u64,
    pub element: f64,
}

// `read`, answered by its number and what the file's head says.
#[unsafe(no_mangle)]
pub extern "C" fn hewn_read_f64(file: &[u8], numbers: &mut [f64]) -> Head
    ensures { FileRead binary64 file.now numbers.old numbers.new result }
{
    Head::from(read(file, numbers))
}

// The element at a place of a panel.
#[tactic(auto, using(crate::proofs::PlaceLaws::no_element, floats::specs::NanLaws::is_nan))]
#[unsafe(no_mangle)]
pub extern "C" fn hewn_panel_element_f64(
    numbers: &[f64],
    rows: u16,
    columns: u16,
    row: usize,
    column: usize,
) -> Element
    ensures { ElementAnswered numbers.now (record { rows = rows; columns = columns }) row column
        result.answer result.element }
{
    match element_at(numbers, rows, columns, row, column) {
        Ok(x) => Element {
            answer: 0,
            element: x,
        },
        Err(x) => Element {
            answer: x.number(),
            element: f64::NAN,
        },
    }
}
