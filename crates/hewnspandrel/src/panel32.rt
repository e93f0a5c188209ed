// The functions of panels of f32. An export has no type parameter, nor has a struct in its signature: so each real has its own.
ghost use Rattle.std.specs.Float.{binary32};
ghost use Rattle.hewnspandrel.specs.Answers.{FileRead, ElementAnswered};

use crate::head::Head;
use panel::panels::element_at;
use panel::reader::read;

// 0 and the element, or the refusal's number and a NaN. A record of both: C has no Result.
#[repr(C)]
#[derive(Clone, Copy)]
pub struct Element {
    pub answer: u64,
    pub element: f32,
}

// `read`, answered by its number and what the file's head says.
#[unsafe(no_mangle)]
pub extern "C" fn hewn_read_f32(file: &[u8], numbers: &mut [f32]) -> Head
    ensures { FileRead binary32 file.now numbers.old numbers.new result }
{
    Head::from(read(file, numbers))
}

// The element at a place of a panel.
#[tactic(auto, using(crate::proofs::PlaceLaws::no_element, floats::specs::NanLaws::is_nan))]
#[unsafe(no_mangle)]
pub extern "C" fn hewn_panel_element_f32(
    numbers: &[f32],
    rows: u16,
    columns: u16,
    row: usize,
    column: usize,
) -> Element
    ensures { ElementAnswered numbers.now (record { rows = rows; columns = columns }) row column
        result.answer result.element }
{
    match element_at(numbers, rows, columns, row, column) {
        Ok(x) => Element {
            answer: 0,
            element: x,
        },
        Err(x) => Element {
            answer: x.number(),
            element: f32::NAN,
        },
    }
}
