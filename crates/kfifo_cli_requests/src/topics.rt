//! What a fault or an answer means, as `explain` is given it.

/// A command whose help says what a fault or an answer means.
#[derive(Clone, Copy)]
pub enum Help {
    /// The command `run`.
    Run,
    /// The command `check`.
    Check,
    /// The command `measure`.
    Measure,
    /// The command `replay`.
    Replay,
    /// The command `judge`.
    Judge,
    /// The command `least`.
    Least,
    /// The command `record`.
    Record,
    /// The command `import`.
    Import,
    /// The command `draw`.
    Draw,
    /// The command `dispatch`.
    Dispatch,
    /// The command `explain`.
    Explain,
}

/// The helps of all commands.
#[derive(Clone, Copy)]
pub struct HelpTexts<'a> {
    /// The help of `run`.
    pub run: &'a str,
    /// The help of `check`.
    pub check: &'a str,
    /// The help of `measure`.
    pub measure: &'a str,
    /// The help of `replay`.
    pub replay: &'a str,
    /// The help of `judge`.
    pub judge: &'a str,
    /// The help of `least`.
    pub least: &'a str,
    /// The help of `record`.
    pub record: &'a str,
    /// The help of `import`.
    pub import: &'a str,
    /// The help of `draw`.
    pub draw: &'a str,
    /// The help of `dispatch`.
    pub dispatch: &'a str,
    /// The help of `explain`.
    pub explain: &'a str,
}

/// A fault or an answer.
#[derive(Clone, Copy)]
pub struct Topic {
    /// The words that it is printed with, up to where they tell it from others; in them `#` stands for a number.
    pub words: &'static str,
    /// The help that says what it means.
    pub help: Help,
    /// How the line begins that says so.
    pub line: &'static str,
    /// What is allowed, and what to do: whole lines.
    pub advice: &'static str,
}
