// What the words of the command line may mean.

/// What the program does.
#[derive(Clone, Copy, PartialEq, Eq)]
pub enum Mode {
    /// It says what is wrong with a document.
    Check,
    /// It reads commands line by line.
    Session,
    /// It says the status of each instance.
    Show,
}

/// What the words of the command line mean.
#[derive(Clone, Copy)]
pub struct Words {
    /// How many steps a settling without a number takes at most.
    pub steps: u32,
    /// A board answers calls; else they are answered by hand.
    pub http: bool,
    pub mode: Mode,
}
