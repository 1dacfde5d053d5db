// What was expected, as a line of text, and that memory ran out.
ghost use Rattle.std.specs.Prelude.{◌≡◌};
ghost use Rattle.command.specs.declared.Misuse.TheVariants.{NoMemory};

use crate::Misuse;
use std::alloc::AllocFailed;
use std::error::Error;
use std::fmt;
use tables::Kind;

fn fields_form(kind: Kind) -> &'static str {
    match kind {
        Kind::Communicators => {
            "record CO PERIOD KIND INITIAL (0 to 65535, 0 to 255, -2147483648 to 2147483647)"
        }
        Kind::Modules => "record MU OWNER START (each 0 to 255, OWNER 255 or - for none)",
        Kind::Modes => "record MO MODULE PERIOD (0 to 255, 0 to 65535)",
        Kind::Tasks => {
            "record TA MODE INPUTS OUTPUTS PARENT FORM (each 0 to 255, PARENT 255 or - for none)"
        }
        Kind::Reads =>
            "record RD TASK INPUT COMMUNICATOR OFFSET (each 0 to 255, OFFSET 0 to 65535)",
        Kind::Writes => {
            "record WR TASK OUTPUT COMMUNICATOR OFFSET (each 0 to 255, OFFSET 0 to 65535)"
        }
        Kind::Dependencies => "record DP TASK OUTPUT TO INPUT (each 0 to 255)",
        Kind::Switches => "record SW MODE CONDITION TARGET (each 0 to 255)",
    }
}

fn form(misuse: Misuse) -> &'static str {
    match misuse {
        Misuse::Unknown => "record, bytes, file, clear, records, read or help",
        Misuse::Mark => "record MARK FIELDS with one of the marks CO MU MO TA RD WR DP SW",
        Misuse::Fields(kind) => fields_form(kind),
        Misuse::Hex => "bytes HEX with an even number of hexadecimal digits",
        Misuse::Name => "file NAME with one name that has no blanks",
        Misuse::Clear => "clear and nothing after it",
        Misuse::Records => "records and nothing after it",
        Misuse::Read => "read and nothing after it",
        Misuse::Help => "help and nothing after it",
        Misuse::NoMemory => "a shorter line, there is no memory for this one",
    }
}

impl fmt::Display for Misuse {
    fn fmt<W: fmt::Write>(&self, f: &mut fmt::Formatter<W>) -> fmt::Result {
        write!(f, "expected: {}", form(*self))
    }
}

impl Error for Misuse {}

impl<T: Drop> From<AllocFailed<T>> for Misuse {
    ghost from_gives = { λ _ why. why ≡ NoMemory };

    fn from(_failed: AllocFailed<T>) -> Misuse {
        Self::NoMemory
    }
}
