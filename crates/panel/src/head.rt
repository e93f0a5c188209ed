// What stands before the elements of a panel's file, and the refusals 21 to 26, for either kind.
ghost use Rattle.std.specs.Prelude.{◌≡◌, ◌≤◌, ◌<◌, ◌^◌, length, take};
ghost use Rattle.refusal.specs.Numbers.{answer_number};
ghost use Rattle.refusal.specs.Order.{done};
ghost use Rattle.words.specs.Words.{number_at};
ghost use Rattle.layout.specs.Operands.{Tells};
ghost use Rattle.panel.specs.File.{mark, format_of_byte, width_of, head_length, header_of, HeadThen, BodyThen};
ghost use Rattle.panel.specs.Heads.{HeaderOr};

use crate::file::{Header, Shape};
use crate::stored::Stored;
use refusal::Refusal;
use words::number_at;

// How many bytes stand before the elements.
pub const HEAD: usize = 10;

// How many bytes an element has, of the kind that a byte names.
fn width_of(kind: u8) -> usize
    ensures { (result ≡ width_of (format_of_byte kind)) × (result ≤ 8) }
{
    if kind == <f64 as Stored>::KIND {
        return <f64 as Stored>::WIDTH;
    }
    <f32 as Stored>::WIDTH
}

// The 16-bit number at an index.
fn short_at(file: &[u8], first: usize) -> u16
    requires { first < 2 ^ 63 }
    ensures { result ≡ number_at 2 file.now first }
{
    number_at(file, 2, first) as u16
}

// Does a file begin with the mark?
fn is_marked(file: &[u8]) -> bool
    ensures { Tells result (take 3 file.now ≡ mark) }
{
    file.starts_with(b"IVP")
}

// 21 to 23, or the header.
fn judge_head(file: &[u8]) -> Result<Header, Refusal>
    ensures { HeaderOr (HeadThen file.now done) file.now result }
{
    if file.len() < HEAD {
        return Err(Refusal::FileShort);
    }
    if !is_marked(file) {
        return Err(Refusal::WrongMark);
    }
    let version = short_at(file, 3);
    if version != 1 {
        return Err(Refusal::UnknownVersion);
    }
    let rows = short_at(file, 6);
    let columns = short_at(file, 8);
    let shape = Shape { rows, columns };
    Ok(Header { version, shape })
}

// 24 to 26, for the kind that is asked for and a destination of `room` elements.
fn judge_body(file: &[u8], shape: Shape, kind: u8, room: usize) -> Result<(), Refusal>
    requires { (head_length ≤ length file.now) × (shape ≡ (header_of file.now).shape) }
    ensures { BodyThen file.now kind room done (answer_number result) }
{
    if file[5] != kind {
        return Err(Refusal::WrongKind);
    }
    if file.len() != HEAD + width_of(kind) * shape.elements() {
        return Err(Refusal::WrongLength);
    }
    if room < shape.elements() {
        return Err(Refusal::NoRoom);
    }
    Ok(())
}

// 21 to 26, or the header. The kind stays a byte, no type: `HeaderOr` is promised of any byte that is asked for, also where it is no kind.
pub fn judge(file: &[u8], kind: u8, room: usize) -> Result<Header, Refusal>
    ensures { HeaderOr (HeadThen file.now (BodyThen file.now kind room done)) file.now result }
{
    let head = judge_head(file)?;
    judge_body(file, head.shape, kind, room)?;
    Ok(head)
}
