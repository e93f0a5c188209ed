// Panels of either real are read from a file.
ghost use Rattle.std.specs.Prelude.{◌≡◌, ◌<◌, ◌^◌, length};
ghost use Rattle.rules.specs.Lists.{tab};
ghost use Rattle.panel.specs.File.{element_in};
ghost use Rattle.panel.specs.Reader.{ReadOutcome};

use crate::file::Header;
use crate::head::{HEAD, judge};
use crate::stored::Stored;
use refusal::Refusal;
use words::number_at;

// Fills numbers from the file's first elements.
fn fill<R: Stored>(file: &[u8], numbers: &mut [R])
    requires { length numbers.old < 2 ^ 32 }
    ensures { R.floats numbers.new ≡ tab (length numbers.old) (element_in R.format file.now) }
{
    for (i, x) in numbers.iter_mut().enumerate() {
        *x = R::float_of(number_at(file, R::WIDTH, HEAD + R::WIDTH * i));
    }
}

// Reads a file's panel into the first elements of a destination.
pub fn read<R: Stored>(file: &[u8], numbers: &mut [R]) -> Result<Header, Refusal>
    ensures { ReadOutcome R.format file.now (R.floats numbers.old) (R.floats numbers.new) result }
{
    let head = judge(file, R::KIND, numbers.len())?;
    fill(file, &mut numbers[..head.shape.elements()]);
    Ok(head)
}
