//! What is wrong with a file, and the refusal of it.

ghost use Rattle.std.specs.Prelude.{◌≡◌, IfOk};
ghost use Rattle.vr_tsplib.specs.Flaws as flaws;
ghost use Rattle.vr_tsplib.specs.Flaws.{RefusesLine, flaw_code, fault_in_line};
ghost use Rattle.vr_tsplib.specs.declared.flaws.LineFail.TheVariants.{Flawed as FlawedFail, NoMemory as NoMemoryFail};

use std::alloc::Global;
use std::fmt::Write;
use vr_json::{Fault, ReadFail};
use vr_model::{NoMemory, Text};

/// What is wrong with a line, or with a file as a whole.
#[derive(Clone, Copy)]
pub enum Flaw {
    /// The line is none that may come there.
    FaultyLine,
    /// A section, or a keyword other than `COMMENT`, comes a second time.
    Repeated,
    /// A word is none of those that the keyword has.
    UnknownWord,
    /// A number lies outside its range.
    OutOfRange,
    /// A node came earlier in its section, or the number after the depot is not -1.
    NodeAgain,
    /// Something that must come earlier, or before the end, is missing.
    Missing,
    /// The demand of the depot is not 0.
    DepotDemand,
}

impl Flaw {
    /// The number of this flaw in the texts of the program, 40 to 46.
    pub fn code(self) -> u8
        ensures { result ≡ flaw_code self }
    {
        match self {
            Flaw::FaultyLine => 40,
            Flaw::Repeated => 41,
            Flaw::UnknownWord => 42,
            Flaw::OutOfRange => 43,
            Flaw::NodeAgain => 44,
            Flaw::Missing => 45,
            Flaw::DepotDemand => 46,
        }
    }
}

/// Why a line, or a file as a whole, is not taken.
#[derive(Clone, Copy)]
pub enum LineFail {
    /// Something is wrong with it.
    Flawed(Flaw),
    /// Memory ran out.
    NoMemory,
}

impl From<Flaw> for LineFail {
    ghost from_gives = { λ flaw e. e ≡ FlawedFail flaw };

    fn from(flaw: Flaw) -> Self {
        LineFail::Flawed(flaw)
    }
}

impl From<NoMemory> for LineFail {
    ghost from_gives = { λ _ e. e ≡ NoMemoryFail };

    fn from(_: NoMemory) -> Self {
        LineFail::NoMemory
    }
}

/// Nothing, unless something is wrong.
#[tactic(auto, unfolding(crate::specs::Flaws::refuse_if))]
pub(crate) fn refuse_if(wrong: bool, flaw: Flaw) -> Result<(), Flaw>
    ensures { result ≡ flaws.refuse_if wrong flaw }
{
    if wrong { Err(flaw) } else { Ok(()) }
}

// The fault of a flaw in the line of this number.
fn fault_of(alloc: Global, flaw: Flaw, number: u64) -> Result<Fault, NoMemory>
    ensures { IfOk result (λ fault. fault ≡ fault_in_line flaw number) }
{
    let mut path = String::new(alloc);
    write!(path, "/{number}")?;
    Ok(Fault {
        code: flaw.code(),
        path: Text::from_str(alloc, path.as_str())?,
    })
}

/// The refusal of the line of this number, which is not taken; 0 is the file as a whole.
pub(crate) fn refusal(alloc: Global, fail: LineFail, number: u64) -> ReadFail
    ensures { RefusesLine fail number result }
{
    match fail {
        LineFail::NoMemory => ReadFail::NoMemory,
        LineFail::Flawed(flaw) => match fault_of(alloc, flaw, number) {
            Ok(fault) => ReadFail::Refused(fault),
            Err(_) => ReadFail::NoMemory,
        },
    }
}
