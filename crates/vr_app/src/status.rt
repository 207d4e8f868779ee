//! How a run ends.

ghost use Rattle.std.specs.Prelude.{◌≡◌};
ghost use Rattle.vr_app.specs.Status.{IsStatus, status_number};

/// The status of a run. Its number is what the program ends with; `vr_cli` has 10 beside these.
#[derive(Clone, Copy)]
pub enum Status {
    /// What was asked for was written.
    Done = 0,
    /// The words are not accepted.
    Usage = 1,
    /// The source failed.
    ReadFault = 2,
    /// The sink failed.
    WriteFault = 3,
    /// The input is no JSON.
    NotJson = 4,
    /// The input is refused: reading finds a fault in it.
    Refused = 5,
    /// The construction gives no first solution.
    NoneFound = 6,
    /// Out of memory.
    NoMemory = 7,
    /// The input has too many bytes.
    TooLong = 8,
    /// The solution breaks a rule of its model.
    NotMet = 9,
}

impl Status {
    /// The number of the status, from 0 to 9.
    pub fn number(self) -> u8
        ensures number { result ≡ status_number self }
        ensures status { IsStatus result }
    {
        self as u8
    }
}
