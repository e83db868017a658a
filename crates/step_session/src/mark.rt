//! What tells where an answer ends.
ghost use Rattle.std.specs.Prelude.{◌≡◌};
ghost use Rattle.step_session.specs.Mark.{end_text, last_text, prompt_text};

/// What tells who gives the lines where an answer ends.
#[derive(Clone, Copy, Debug, PartialEq, Eq)]
pub enum Mark {
    /// A prompt before the next line: a person types the lines, and sees the answers.
    Prompt,
    /// The line `end` after the answer: a program sends the lines.
    End,
    /// Nothing: a person types the lines, and the answers go elsewhere.
    Nothing,
}

impl Mark {
    /// What is printed before a line is read.
    pub(crate) fn prompt(self) -> &'static [u8]
        ensures { result.now ≡ prompt_text self }
    {
        match self {
            Mark::Prompt => b"> ",
            Mark::End | Mark::Nothing => b"",
        }
    }

    /// What is printed after an answer.
    pub(crate) fn end(self) -> &'static [u8]
        ensures { result.now ≡ end_text self }
    {
        match self {
            Mark::End => b"end\n",
            Mark::Prompt | Mark::Nothing => b"",
        }
    }

    /// What is printed where the lines end.
    pub(crate) fn last(self) -> &'static [u8]
        ensures { result.now ≡ last_text self }
    {
        match self {
            Mark::Prompt => b"\n",
            Mark::End | Mark::Nothing => b"",
        }
    }
}
