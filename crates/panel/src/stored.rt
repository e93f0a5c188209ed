// How a panel's file stores each kind of real.
ghost use Rattle.std.specs.Prelude.{◌≡◌, ℕ, refl};
ghost use Rattle.panel.specs.File.{byte_of, width_of};

use floats::patterns::Patterns;

pub trait Stored: Patterns {
    // The kind's byte, and the bytes of an element.
    const KIND: u8;

    const WIDTH: usize;

    ghost KIND: { ℕ };

    ghost WIDTH: { ℕ };

    // They are the format's.
    ghost kind_is: { KIND ≡ byte_of Self.format };

    ghost width_is: { WIDTH ≡ width_of Self.format };
}

impl Stored for f32 {
    const KIND: u8 = 1;

    const WIDTH: usize = 4;

    ghost KIND = { 1 };

    ghost WIDTH = { 4 };

    ghost kind_is = { refl };

    ghost width_is = { refl };
}

impl Stored for f64 {
    const KIND: u8 = 2;

    const WIDTH: usize = 8;

    ghost KIND = { 2 };

    ghost WIDTH = { 8 };

    ghost kind_is = { refl };

    ghost width_is = { refl };
}
