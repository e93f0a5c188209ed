// What a panel's file says before its elements.
ghost use Rattle.std.specs.Prelude.{◌≡◌, ◌<◌, ◌^◌};
ghost use Rattle.panel.specs.File.{elements_of};

#[derive(Clone, Copy, Debug, PartialEq, Eq)]
pub struct Shape {
    pub rows: u16,
    pub columns: u16,
}

impl Shape {
    // How many elements a panel of this shape has.
    pub fn elements(self) -> usize
        ensures { (result ≡ elements_of self) × (result < 2 ^ 32) }
    {
        self.rows as usize * self.columns as usize
    }
}

#[derive(Clone, Copy, Debug, PartialEq, Eq)]
pub struct Header {
    pub version: u16,
    pub shape: Shape,
}
