// The shapes of an answer.

ghost use Rattle.std.specs.Prelude.{◌≡◌, ◌&&◌, not};
ghost use Rattle.ssb_show.specs.Shown as spec;

/// How the fields of a row stand.
#[derive(Clone, Copy, PartialEq, Eq, Debug)]
pub enum Mode {
    /// Joined by bars, as programs read them.
    Bars,
    /// In columns as wide as their widest field, two spaces between: numbers at the right edge, texts at the
    /// left.
    Columns,
}

/// The shape in which an answer is shown.
#[derive(Clone, Copy, PartialEq, Eq, Debug)]
pub struct Shape {
    /// How the fields of a row stand.
    pub mode: Mode,
    /// Whether the titles of the columns stand above the rows; in columns with a line of dashes below.
    pub headers: bool,
}

impl Shape {
    /// Bars without headers: the rows alone.
    pub fn plain() -> Shape
        ensures { result ≡ spec.plain }
    {
        Shape {
            mode: Mode::Bars,
            headers: false,
        }
    }

    /// Whether it is the plain shape.
    pub fn is_plain(self) -> bool
        ensures { result ≡ spec.are_bars self.mode && not self.headers }
    {
        matches!(self.mode, Mode::Bars) && !self.headers
    }
}

/// A law: the plain shape shows the text of the rows.
pub fn plain_is_text()
    ensures { spec.PlainIsText }
{}
