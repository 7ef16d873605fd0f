//! Why a line is bad.
ghost use Rattle.std.specs.Prelude.{◌≡◌};
ghost use Rattle.line_input.specs.Why.{why_text};

/// Why a line is bad.
#[derive(Clone, Copy, Debug, PartialEq, Eq)]
pub enum LineWhy {
    /// The line has more than 1,000,000 bytes before its LF or the input's end.
    TooLong,
}

impl LineWhy {
    /// The reason in words. Takes no memory.
    pub fn text(&self) -> &'static str
        ensures { result.now ≡ why_text self.now }
    {
        match self {
            LineWhy::TooLong => "line too long",
        }
    }
}
