/// The summary of a run over the rows of a stream.
#[derive(Clone, Copy, Debug, PartialEq, Eq)]
pub struct Summary {
    /// How many rows of the stream were read, at most 1,000,000.
    pub rows: u32,
    /// The version of the database at the end.
    pub version: u32,
    /// How many requests were answered.
    pub answers: u32,
    /// How many rows and batches were refused, and one more if changes were still open at the end.
    pub refused: u32,
    /// Whether the stream had more than 1,000,000 rows.
    pub too_many: bool,
}

impl Summary {
    ghost use Rattle.std.specs.Prelude.{◌≡◌};
    ghost use Rattle.cspf_solve.specs.Status.{status_of};

    /// The exit status of the run: 2 if anything was refused or there were too many rows, and 0
    /// otherwise.
    pub fn status(self) -> u8
        ensures { result ≡ status_of self }
    {
        if self.too_many || self.refused > 0 {
            2
        } else {
            0
        }
    }
}
